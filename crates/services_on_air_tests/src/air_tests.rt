//! One service on air is one chain on air.

use crate::runs::*;
use std::process::Abort;
use std::test::Fail;
use two_program_streams::Item::*;
use two_program_streams::{Item, Stream};

/// A network whose program 1 is scrambled for a while, has a stamp that lies far off, changes, and comes again.
const NETWORK: &[Item] = &[
    Pat,
    Map(1, &[ONE]),
    Map(2, &[TWO]),
    Unit(ONE, 900_000),
    Unit(TWO, 900_000),
    Unit(ONE, 1_200_000),
    Scrambled(ONE),
    Unit(ONE, 1_300_000),
    Unit(ONE, 9_000_000),
    Unit(ONE, 1_900_000),
    Unit(0x1F0, 5),
    Map(1, &[0x101]),
    Unit(ONE, 2_200_000),
    Pat,
    Map(1, &[ONE]),
    Unit(ONE, 9_000_000),
    Unit(ONE, 400_000),
    Unit(ONE, 700_000),
    Pat,
    Map(1, &[ONE]),
    Unit(ONE, 900_000),
];

#[test]
fn one_service_goes_as_one_chain(rt: HostRuntime) -> Result<(), Fail> {
    let alloc = rt.alloc();
    let configs = [service(1, 0x1F0, 1)?];
    let network = Stream::of(alloc, NETWORK)?;
    let served = run(alloc, &configs, network.bytes(), BOTH)?;
    let alone = run_alone(alloc, service(1, 0x1F0, 1)?, network.bytes(), BOTH)?;
    assert!(rt; served.out.as_slice() == alone.out.as_slice());
    assert!(rt; served.replies.as_slice() == alone.replies.as_slice());
    assert!(rt; served.told == alone.told);
    let (services, chain) = (&served.report, &alone.report);
    assert_eq!(rt;
        [
            services.report.messages,
            services.report.accepted,
            services.report.refused
        ],
        [
            chain.report.messages,
            chain.report.accepted,
            chain.report.refused
        ]
    );
    assert_eq!(rt;
        [services.stretches, services.lost, services.unjudged],
        [chain.stretches, chain.lost, chain.unjudged]
    );
    let Some(events) = services.report.services.first() else {
        return Err(Fail::from("a service"));
    };
    assert_eq!(rt; events.switch, chain.report.switch);
    Ok(())
}

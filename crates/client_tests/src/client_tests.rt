//! One channel, bounded in packets, and its clients.

use crate::channel::{Channel, PACKETS, null_packet};
use automations::{Clients, Sessions, listen};
use chain_engine::Chain;
use on_air::{Unwatched, inject_on_air};
use psi_tables::Config;
use std::net::OpenListener;
use std::test::Fail;
use ts_packet::{Device, PacketReader, PacketWriter, Pid};

#[test]
fn clients_come_and_go_and_the_network_goes_on(rt: HostRuntime) -> Result<(), Fail> {
    let listener = listen(&rt, 0)?;
    let address = listener.local_addr()?;
    assert!(rt; address.ip().is_loopback());
    let Ok(config) = Config::new(1, Pid::new(496).ok_or("a PID")?, 1) else {
        return Err(Fail::from("a configuration"));
    };
    let Ok(chain) = Chain::new(rt.alloc(), config) else {
        return Err(Fail::from("memory"));
    };
    let mut input = Device::new(Channel::new(&rt, address));
    let mut target = Device::new(Vec::new(rt.alloc()));
    let mut network = PacketReader::new(&mut input);
    let mut out = PacketWriter::new(&mut target);
    let mut clients = Clients::new(&listener);
    let Ok(told) = inject_on_air(chain, &mut network, &mut clients, &mut out, &mut Unwatched) else {
        return Err(Fail::from("a run"));
    };
    let report = told.report;
    assert_eq!(rt;
        (report.messages, report.accepted, report.refused),
        (5, 0, 5)
    );
    assert_eq!(rt; told.stretches, 1);
    assert_eq!(rt; clients.closed(), 1);
    let mut wanted = Vec::new(rt.alloc());
    for _ in 0..PACKETS {
        wanted.extend_from_slice(&null_packet())?;
    }
    assert!(rt; target.into_inner().as_slice() == wanted.as_slice());
    Ok(())
}

//! Lists of breaks: what their lines plan, and the lines that plan nothing.

use break_lists::{At, BreaksFault, Expected, NumberedLine, Order, RefusedLine, read_breaks};
use pes_time::Time33;
use std::alloc::Global;
use std::test::Fail;

/// A list with comments, blank lines, both ends of lines, words of any case, and no end behind the last line.
const LIST: &[u8] =
    b"# two breaks\r\n12.48 FOR 30 play 7\r\n\r\n00:01:30.000 for 0.5 Play 65535 as 4294967295 # late\n\tPTS 1933200 end 4\n3 cancel 1";

/// Lines that plan nothing, and what was expected.
const REFUSED: [(&[u8], Expected); 14] = [
    (b"1.2345 cancel 1", Expected::Time),
    (b"1:60:00 cancel 1", Expected::Time),
    (b"00:30 cancel 1", Expected::Time),
    (b"-1 cancel 1", Expected::Time),
    (b"pts 8589934592 cancel 1", Expected::Stamp),
    (b"pts", Expected::Stamp),
    (b"12", Expected::Verb),
    (b"12 for", Expected::Length),
    (b"12 for 30 7", Expected::Play),
    (b"12 for 30 play 65536", Expected::Advert),
    (b"12 for 30 play 7 8", Expected::As),
    (b"12 for 30 play 7 as", Expected::Event),
    (b"12 end 4294967296", Expected::Event),
    (b"12 end 4 now", Expected::End),
];

fn read(alloc: Global, text: &[u8]) -> Result<Vec<NumberedLine>, BreaksFault> {
    read_breaks(alloc, text)
}

#[test]
fn lines_say_what_they_plan(rt: HostRuntime) -> Result<(), Fail> {
    let lines = read(rt.alloc(), LIST).ok().expect(&rt, "a list");
    let stamp = Time33::new(1_933_200).expect(&rt, "a stamp");
    let planned = [
        (
            2,
            At::After(12_480),
            Order::Play {
                length: 30_000,
                advert: 7,
                event: None,
            },
        ),
        (
            4,
            At::After(90_000),
            Order::Play {
                length: 500,
                advert: 65_535,
                event: Some(4_294_967_295),
            },
        ),
        (5, At::Stamp(stamp), Order::End(4)),
        (6, At::After(3_000), Order::Cancel(1)),
    ];
    assert_eq!(rt; lines.len(), 4);
    for (line, (number, at, order)) in lines.iter().zip(&planned) {
        assert_eq!(rt; line.number, *number);
        assert_eq!(rt; line.line.at, *at);
        assert_eq!(rt; line.line.order, *order);
    }
    Ok(())
}

#[test]
fn bad_lines_are_named(rt: HostRuntime) -> Result<(), Fail> {
    for (text, expected) in &REFUSED {
        let mut list = Vec::new(rt.alloc());
        list.extend_from_slice(b"1 for 1 play 1\n\n")?;
        list.extend_from_slice(text)?;
        let refused = RefusedLine {
            number: 3,
            expected: *expected,
        };
        let fault = read(rt.alloc(), list.as_slice()).err();
        assert_eq!(rt; fault, Some(BreaksFault::Line(refused)));
    }
    Ok(())
}

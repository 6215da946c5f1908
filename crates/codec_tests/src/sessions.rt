use as_session::*;
use linked_list_allocator::LocalHeap;
use std::alloc::{AllocError, Allocator};
use std::test::*;

/// A message with one request.
const REQUEST: [u8; 30] = [
    0xFF, 0xFF, 0, 0x1E, 0, 0, 5, 0, 1, 0, 0, 1, 1, 1, 0, 0x0E, 1, 0, 0, 0, 1, 0, 7, 0x0F, 0xA0, 1,
    0x2C, 0, 0, 1,
];

/// Feeds a piece to its end. Answers how many messages came, and the size of the last.
fn take<A: Allocator>(session: &mut Session<A>, piece: &[u8]) -> (usize, usize) {
    let mut rest = piece;
    let mut size = 0;
    for count in 0..=piece.len() {
        let (used, got) = session.feed(rest);
        let Got::Message(message) = got else {
            return (count, size);
        };
        size = message.len();
        let (_, after) = rest.split_at(used);
        rest = after;
    }
    (usize::MAX, size)
}

#[test]
fn takes_any_pieces(rt: HostRuntime) -> Result<(), Fail> {
    let mut session = Session::new(rt.alloc())?;
    expect_eq!(rt; take(&mut session, &REQUEST), (1, 30));
    for (place, byte) in REQUEST.iter().enumerate() {
        let want = if place == 29 { (1, 30) } else { (0, 0) };
        assert_eq!(rt; take(&mut session, &[*byte]), want, "at {place}");
    }
    let mut twice = Vec::from_slice(rt.alloc(), &REQUEST)?;
    twice.extend_from_slice(&REQUEST)?;
    expect_eq!(rt; take(&mut session, twice.as_slice()), (2, 30));
    expect_eq!(rt; session.end(), 0);
    Ok(())
}

#[test]
fn closes_for_good(rt: HostRuntime) -> Result<(), Fail> {
    let mut session = Session::new(rt.alloc())?;
    assert_eq!(rt; session.feed(&[0xFF, 0xFF, 0]), (3, Got::None));
    assert_eq!(rt; session.feed(&[0x0B, 1, 2]), (1, Got::Closed));
    assert_eq!(rt; session.feed(&REQUEST), (0, Got::Closed));
    assert_eq!(rt; session.end(), 0);
    for pending in 0..30 {
        let mut session = Session::new(rt.alloc())?;
        assert_eq!(rt; session.feed(&REQUEST[..pending]), (pending, Got::None));
        assert_eq!(rt; session.end(), pending);
        assert_eq!(rt; session.feed(&REQUEST), (0, Got::Closed));
    }
    Ok(())
}

#[test]
fn takes_the_longest_message(rt: HostRuntime) -> Result<(), Fail> {
    let mut stream = vec![in rt.alloc(); 0; 65_535]?;
    stream[0] = 0xFF;
    stream[1] = 0xFF;
    stream[2] = 0xFF;
    stream[3] = 0xFF;
    stream.extend_from_slice(&REQUEST)?;
    let mut session = Session::new(rt.alloc())?;
    for piece in stream.as_slice().chunks(4096).take(15) {
        assert_eq!(rt; session.feed(piece), (4096, Got::None));
    }
    let last = &stream.as_slice()[61_440..65_536];
    let (used, got) = session.feed(last);
    expect_eq!(rt; used, 4095);
    assert!(rt; matches!(got, Got::Message(message) if message.len() == 65_535));
    assert_eq!(rt; session.feed(&last[4095..]), (1, Got::None));
    expect_eq!(rt; take(&mut session, &REQUEST[1..]), (1, 30));
    Ok(())
}

/// Whether a session takes a request with this much memory.
fn works<A: Allocator + Copy>(alloc: A) -> Result<usize, AllocError> {
    let mut session = Session::new_in(alloc)?;
    Ok(take(&mut session, &REQUEST).0)
}

#[test]
fn asks_for_memory_once(rt: HostRuntime) -> Result<(), Fail> {
    for (size, want) in [
        (16, false),
        (65_600, false),
        (131_000, false),
        (140_000, true),
    ] {
        let heap = LocalHeap::new(rt.alloc(), size)?;
        let worked = works(&heap);
        assert_eq!(rt; worked.is_ok(), want, "with {size} bytes");
        expect_eq!(rt; heap.used(), 0);
    }
    Ok(())
}

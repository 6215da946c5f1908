//! Words that are not taken, and lines that do not come out.

use crate::asking::{Outcome, ask};
use crate::expecting::expect_nothing;
use failing_devices::{Calls, Ending, FailTarget};

/// An alive_request as the words ask for it.
const ALIVE: [&str; 2] = ["request", "alive"];

#[test]
fn numbers_past_their_fields_are_refused(rt: HostRuntime) {
    expect_nothing(&rt, "request alive --index 65536", Outcome::Refused);
    expect_nothing(&rt, "request alive --as-index 256", Outcome::Refused);
    expect_nothing(&rt, "request alive --message 256", Outcome::Refused);
    expect_nothing(
        &rt,
        "request alive --mark 9223372036854775808",
        Outcome::Refused,
    );
    expect_nothing(
        &rt,
        "request cancel --index 1 --event 4294967296",
        Outcome::Refused,
    );
    expect_nothing(
        &rt,
        "request end --index 1 --event 1 --pre-roll 65536",
        Outcome::Refused,
    );
    expect_nothing(
        &rt,
        "request start --index 1 --event 1 --program-id 65536 --pre-roll 1 --duration 1",
        Outcome::Refused,
    );
    expect_nothing(
        &rt,
        "request start --index 1 --event 1 --program-id 1 --pre-roll 1 --duration 65536",
        Outcome::Refused,
    );
}

#[test]
fn texts_that_are_no_numbers_are_refused(rt: HostRuntime) {
    expect_nothing(&rt, "request alive --message 0x10", Outcome::Refused);
    expect_nothing(&rt, "request alive --message -1", Outcome::Refused);
    expect_nothing(&rt, "request alive --message 1s", Outcome::Refused);
    expect_nothing(
        &rt,
        "request start --index 1 --event 1 --program-id 1 --pre-roll 1 --duration 1 --auto-return yes",
        Outcome::Refused,
    );
}

#[test]
fn words_that_say_too_little_or_too_much_are_not_taken(rt: HostRuntime) {
    expect_nothing(&rt, "request", Outcome::NotTaken);
    expect_nothing(&rt, "request stop", Outcome::NotTaken);
    expect_nothing(&rt, "request cancel --index 1", Outcome::NotTaken);
    expect_nothing(&rt, "request cancel --event 1", Outcome::NotTaken);
    expect_nothing(&rt, "request alive --event 1", Outcome::NotTaken);
}

/// A device that takes 3 bytes a call has all of the line; one that fails, stops or cannot flush does not.
#[test]
fn a_line_that_is_not_out_is_told(rt: HostRuntime) {
    let slow = Calls {
        step: 3,
        good: 100,
        ending: Ending::Fails,
    };
    let failing = Calls { good: 5, ..slow };
    let full = Calls {
        good: 5,
        ending: Ending::Stops,
        ..slow
    };
    let alloc = rt.alloc();
    let mut whole = FailTarget::new(alloc, slow);
    assert_eq!(rt; ask(alloc, &ALIVE, &mut whole), Outcome::Printed);
    assert!(rt; whole.taken().as_slice() == b"0003000DFFFFFFFF0000010000\n".as_slice());
    let mut device = FailTarget::new(alloc, failing);
    assert_eq!(rt; ask(alloc, &ALIVE, &mut device), Outcome::Unprinted);
    let mut device = FailTarget::new(alloc, full);
    assert_eq!(rt; ask(alloc, &ALIVE, &mut device), Outcome::Unprinted);
    let mut device = FailTarget::failing_to_flush(alloc, slow);
    assert_eq!(rt; ask(alloc, &ALIVE, &mut device), Outcome::Unprinted);
}

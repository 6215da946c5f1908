//! The lines of each kind of message.

use crate::expecting::expect_line;

/// The line of sample/breaks.txt.
#[test]
fn a_start_is_a_line_of_a_script(rt: HostRuntime) {
    expect_line(
        &rt,
        "request start --mark 30 --message 5 --index 1 --event 1 --program-id 7 --pre-roll 1872 --duration 10",
        "30 FFFF001E00000500010000010101000E010000000100070750000A000001\n",
    );
}

/// Both messages of sample/two_breaks.txt, the second of them for another program.
#[test]
fn digits_alone_go_on_a_line(rt: HostRuntime) {
    expect_line(
        &rt,
        "request start --message 5 --index 1 --event 1 --program-id 7 --pre-roll 1872 --duration 10",
        "FFFF001E00000500010000010101000E010000000100070750000A000001\n",
    );
    expect_line(
        &rt,
        "request start --message 6 --index 3 --event 1 --program-id 7 --pre-roll 872 --duration 10",
        "FFFF001E00000600030000010101000E010000000100070368000A000001\n",
    );
}

/// No two fields are alike: 12, 34, 5678 of the head, 9ABCDEF0 of the event, then 1122, 3344, 5566, 77, 88 and no return.
#[test]
fn each_field_stands_in_its_place(rt: HostRuntime) {
    expect_line(
        &rt,
        "request start --as-index 18 --message 52 --index 22136 --event 2596069104 --program-id 4386 --pre-roll 13124 --duration 21862 --avail 119 --avails 136 --auto-return off",
        "FFFF001E00123456780000010101000E019ABCDEF0112233445566778800\n",
    );
}

#[test]
fn the_greatest_numbers_are_taken(rt: HostRuntime) {
    expect_line(
        &rt,
        "request start --mark 9223372036854775807 --as-index 255 --message 255 --index 65535 --event 4294967295 --program-id 65535 --pre-roll 65535 --duration 65535 --avail 255 --avails 255 --auto-return on",
        "9223372036854775807 FFFF001E00FFFFFFFF0000010101000E01FFFFFFFFFFFFFFFFFFFFFFFF01\n",
    );
}

#[test]
fn an_end_has_its_time_alone(rt: HostRuntime) {
    expect_line(
        &rt,
        "request end --message 6 --index 1 --event 1 --pre-roll 2000",
        "FFFF001E00000600010000010101000E0300000001000007D00000000000\n",
    );
}

#[test]
fn a_cancel_has_its_event_alone(rt: HostRuntime) {
    expect_line(
        &rt,
        "request cancel --mark 0 --message 6 --index 1 --event 1",
        "0 FFFF001E00000600010000010101000E0500000001000000000000000000\n",
    );
}

#[test]
fn single_operations_have_their_head_alone(rt: HostRuntime) {
    expect_line(&rt, "request init", "0001000DFFFFFFFF0000010000\n");
    expect_line(&rt, "request alive", "0003000DFFFFFFFF0000010000\n");
    expect_line(
        &rt,
        "request alive --mark 7 --as-index 2 --message 3 --index 260",
        "7 0003000DFFFFFFFF0002030104\n",
    );
}

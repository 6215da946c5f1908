//! Who is let in, and that nobody is waited for.

use crate::hall::{Hall, Line, Machine, alive};
use automations::{Clients, accept, listen};
use chain_engine::{Automation, Taken};
use std::net::SocketAddr;
use std::process::Abort;
use std::test::Fail;

/// The next take gives this message.
fn expect_message<R: Abort, A: Automation>(rt: &R, automation: &mut A, message: &[u8]) {
    let mut room = [0; 4_096];
    let is_there = match automation.take(&mut room) {
        Taken::Bytes(count) => &room[..count.min(4_096)] == message,
        Taken::Nothing | Taken::Ended | Taken::Failed => false,
    };
    assert!(rt; is_there, "{message:?}");
}

/// The next takes have nothing, as many as one that asks and fifteen that do not.
fn expect_nothing<R: Abort, A: Automation>(rt: &R, automation: &mut A) {
    let mut room = [0; 4_096];
    for _turn in 0..16 {
        let taken = automation.take(&mut room);
        assert!(rt; taken == Taken::Nothing);
    }
}

#[test]
fn a_port_of_this_machine_is_bound(rt: HostRuntime) -> Result<(), Fail> {
    let line = Line::new(0);
    let machine = Machine::new(&line);
    assert!(rt; listen(&machine, 5_167).is_ok());
    assert_eq!(rt;
        machine.bound(),
        Some(SocketAddr::from(([127, 0, 0, 1], 5_167)))
    );
    assert!(rt; listen(&machine, 5_168).is_err());
    Ok(())
}

#[test]
fn the_first_client_in_line_is_let_in(rt: HostRuntime) -> Result<(), Fail> {
    let line = Line::new(3);
    let hall = Hall::new(&line);
    let mut connection = accept(&hall).ok_or("a client")?;
    assert_eq!(rt; line.accepted(), 1);
    expect_message(&rt, &mut connection, &alive(0));
    expect_nothing(&rt, &mut connection);
    assert_eq!(rt; line.accepted(), 1);
    assert!(rt; !line.has_waited());
    Ok(())
}

#[test]
fn a_client_that_may_wait_is_not_let_in(rt: HostRuntime) {
    let line = Line::new(1);
    line.refuse_setting();
    assert!(rt; accept(&Hall::new(&line)).is_none());
    let line = Line::new(1);
    line.refuse_copies();
    assert!(rt; accept(&Hall::new(&line)).is_none());
    assert!(rt; accept(&Hall::new(&Line::new(0))).is_none());
}

#[test]
fn no_client_is_waited_for(rt: HostRuntime) -> Result<(), Fail> {
    let line = Line::new(1);
    let hall = Hall::new(&line);
    let mut clients = Clients::new(&hall);
    expect_message(&rt, &mut clients, &alive(0));
    expect_nothing(&rt, &mut clients);
    assert_eq!(rt; line.accepted(), 1);
    let empty = Line::new(0);
    let hall = Hall::new(&empty);
    let mut clients = Clients::new(&hall);
    expect_nothing(&rt, &mut clients);
    assert!(rt; !line.has_waited() && !empty.has_waited());
    Ok(())
}

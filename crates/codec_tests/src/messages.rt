use arrayvec::ArrayVec;
use scte104_codec::*;
use std::test::*;

/// A message with one request: start of event 1, program 7, 4 seconds ahead, 30 seconds long.
const REQUEST: [u8; 30] = [
    0xFF, 0xFF, 0, 0x1E, 0, 0, 5, 0, 1, 0, 0, 1, 1, 1, 0, 0x0E, 1, 0, 0, 0, 1, 0, 7, 0x0F, 0xA0, 1,
    0x2C, 0, 0, 1,
];

fn multiple(bytes: &[u8]) -> Option<Multi<'_>> {
    match frame(bytes) {
        Frame::Whole(size) if size == bytes.len() => match read(bytes) {
            Ok(Message::Multi(multi)) => Some(multi),
            _ => None,
        },
        _ => None,
    }
}

#[test]
fn reads_requests(rt: HostRuntime) -> Result<(), Fail> {
    let multi = multiple(&REQUEST).ok_or("a message with one request")?;
    assert!(rt; multi.is_known());
    let mut requests = multi.splice_requests();
    let request = requests.next().ok_or("one request")?;
    expect_eq!(rt; request.splice_insert_type, 1);
    expect_eq!(rt; request.splice_event_id, 1);
    expect_eq!(rt; request.unique_program_id, 7);
    expect_eq!(rt; request.pre_roll_time, 4000);
    expect_eq!(rt; request.break_duration, 300);
    assert!(rt; request.auto_return);
    assert!(rt; requests.next().is_none());
    Ok(())
}

/// Two `insert_avail_descriptor`s with three ids, and between them a `splice_null_request`.
const AVAILS: [u8; 38] = [
    0xFF, 0xFF, 0, 0x26, 0, 0, 5, 0, 1, 0, 0, 3, 1, 0x0A, 0, 9, 2, 0, 0, 1, 0x35, 0xFF, 0, 0, 1, 1,
    2, 0, 0, 1, 0x0A, 0, 5, 1, 0, 0, 0, 9,
];

#[test]
fn reads_avail_ids(rt: HostRuntime) -> Result<(), Fail> {
    let multi = multiple(&AVAILS).ok_or("a message with avail ids")?;
    assert!(rt; !multi.is_known());
    assert!(rt; multi.splice_requests().next().is_none());
    let ids = multi.avail_ids::<3>().ok_or("three ids")?;
    expect_eq!(rt; ids.as_slice(), [0x135, 0xFF00_0001, 9].as_slice());
    assert!(rt; multi.avail_ids::<2>().is_none());
    Ok(())
}

fn reply_of(op: u16, code: u16, number: u8, data: &[u8]) -> Reply {
    let mut tail = ArrayVec::new();
    let _ = tail.try_extend_from_slice(data);
    let head = Head {
        as_index: 0,
        number,
        index: 1,
    };
    Reply {
        op,
        result: code,
        head,
        tail,
    }
}

#[test]
fn writes_replies(rt: HostRuntime) {
    let cases: [(Reply, &[u8]); 5] = [
        (
            reply_of(operation_ids::ALIVE_RESPONSE, 100, 7, &[]),
            &[
                0x00, 0x04, 0x00, 0x0D, 0x00, 0x64, 0xFF, 0xFF, 0x00, 0x00, 0x07, 0x00, 0x01,
            ],
        ),
        (
            reply_of(operation_ids::INIT_RESPONSE, 100, 1, &[]),
            &[
                0x00, 0x02, 0x00, 0x0D, 0x00, 0x64, 0xFF, 0xFF, 0x00, 0x00, 0x01, 0x00, 0x01,
            ],
        ),
        (
            reply_of(operation_ids::GENERAL_RESPONSE, 0x8005, 2, &[]),
            &[
                0x00, 0x00, 0x00, 0x0D, 0x80, 0x05, 0xFF, 0xFF, 0x00, 0x00, 0x02, 0x00, 0x01,
            ],
        ),
        (
            reply_of(operation_ids::ALIVE_RESPONSE, 0x8001, 1, &[]),
            &[
                0x00, 0x04, 0x00, 0x0D, 0x80, 0x01, 0xFF, 0xFF, 0x00, 0x00, 0x01, 0x00, 0x01,
            ],
        ),
        (
            reply_of(operation_ids::INJECT_RESPONSE, 100, 5, &[5]),
            &[
                0x00, 0x07, 0x00, 0x0E, 0x00, 0x64, 0xFF, 0xFF, 0x00, 0x00, 0x05, 0x00, 0x01, 0x05,
            ],
        ),
    ];
    for (reply, want) in &cases {
        expect_eq!(rt; write_reply(reply).as_slice(), *want);
    }
}

/// A head with this `message_number`, of program index 1.
fn head_of(number: u8) -> Head {
    Head {
        as_index: 0,
        number,
        index: 1,
    }
}

/// The bytes of a request, of which nothing is known here.
fn written(number: u8, request: SpliceRequest) -> ArrayVec<u8, 30> {
    write_request(head_of(number), request)
}

fn written_init(number: u8) -> ArrayVec<u8, 13> {
    write_init_request(head_of(number))
}

fn written_alive(number: u8) -> ArrayVec<u8, 13> {
    write_alive_request(head_of(number))
}

#[test]
fn writes_requests(rt: HostRuntime) {
    let start = SpliceRequest {
        splice_insert_type: 1,
        splice_event_id: 1,
        unique_program_id: 7,
        pre_roll_time: 4000,
        break_duration: 300,
        avail_num: 0,
        avails_expected: 0,
        auto_return: true,
    };
    expect_eq!(rt; written(5, start).as_slice(), REQUEST.as_slice());
    let init = [
        0x00, 0x01, 0x00, 0x0D, 0xFF, 0xFF, 0xFF, 0xFF, 0x00, 0x00, 0x05, 0x00, 0x01,
    ];
    expect_eq!(rt; written_init(5).as_slice(), init.as_slice());
    let alive = [
        0x00, 0x03, 0x00, 0x0D, 0xFF, 0xFF, 0xFF, 0xFF, 0x00, 0x00, 0x05, 0x00, 0x01,
    ];
    expect_eq!(rt; written_alive(5).as_slice(), alive.as_slice());
}

//! The requests of a plan, judged as the chain judges them.

ghost use Rattle.std.specs.Prelude.{◌≡◌, ◌≤◌, length, map, IfOk};
ghost use Rattle.break_plans.specs.Verdicts.{taken};
ghost use Rattle.break_plans.specs.Judging.{unjudged};

use crate::drafts::Setting;
use crate::order::AskedBy;
use crate::planned::{Judged, Verdict};
use crate::times::stamp_of;
use break_choices::Mark;
use break_scripts::{PlacedRequest, request_bytes};
use injector::Requests;
use scte104_codec::read;
use std::alloc::{AllocError, Global};

/// `result` of a reply where a request was taken.
const SUCCESS: u16 = 100;

/// The most requests before a packet: a line of a script has 4,096 bytes at most, and a message 30.
const MOST: u64 = 136;

/// Tells a judge the greatest times before a packet, and answers the marks behind it.
fn pass<'a>(requests: &mut Requests, marks: &'a [Mark], packet: u64) -> &'a [Mark]
    ensures { length result.now ≤ length marks.now }
{
    let mut rest = marks;
    while let Some((mark, behind)) = rest.split_first() {
        if packet < mark.packet {
            return rest;
        }
        let high = stamp_of(mark.high);
        if requests.can_advance(high) {
            requests.advance(high);
        }
        rest = behind;
    }
    rest
}

/// How a judge answers a request.
fn ask(requests: &mut Requests, placed: PlacedRequest, index: u16) -> Verdict {
    let bytes = request_bytes(placed.request, 0, index);
    let reply = requests.ask(read(bytes.as_slice()));
    if reply.result == SUCCESS {
        Verdict::Taken
    } else {
        Verdict::Refused(reply.result)
    }
}

/// How many of these come before a packet and are taken.
fn count_before(judged: &[Judged], packet: u64) -> u64 {
    let mut count = 0_u64;
    for one in judged {
        if one.placed.packet == packet && one.verdict == Verdict::Taken {
            count = count.saturating_add(1);
        }
    }
    count
}

/// Judges requests in the order of their packets, as the chain does.
///
/// # Errors
///
/// Where the allocator refused memory.
pub(crate) fn judge(
    alloc: Global,
    setting: &Setting<'_>,
    asked: &[AskedBy],
) -> Result<Vec<Judged>, AllocError>
    ensures { IfOk result (λ v. map unjudged v.items ≡ asked.now) }
{
    let mut judged: Vec<Judged> = Vec::new(alloc);
    let mut requests = Requests::new(setting.index);
    let mut marks = setting.marks;
    let mut rest = asked;
    while let Some((next, behind)) = rest.split_first() {
        let AskedBy { place, placed } = *next;
        marks = pass(&mut requests, marks, placed.packet);
        let verdict = if count_before(judged.as_slice(), placed.packet) >= MOST {
            Verdict::Crowded
        } else {
            ask(&mut requests, placed, setting.index)
        };
        judged.push(Judged {
            place,
            placed,
            verdict,
        })?;
        rest = behind;
    }
    Ok(judged)
}

/// Those of the requests that are taken.
///
/// # Errors
///
/// Where the allocator refused memory.
pub(crate) fn taken(alloc: Global, judged: &[Judged]) -> Result<Vec<PlacedRequest>, AllocError>
    ensures { IfOk result (λ v. v.items ≡ taken judged.now) }
{
    let mut requests = Vec::new(alloc);
    let mut rest = judged;
    while let Some((one, behind)) = rest.split_first() {
        if let Verdict::Taken = one.verdict {
            requests.push(one.placed)?;
        }
        rest = behind;
    }
    Ok(requests)
}

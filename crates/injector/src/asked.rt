//! What a message asks for, as far as the message alone tells.

ghost use Rattle.std.specs.Prelude.{◌≡◌, IfOk};
ghost use Rattle.scte104_codec.specs.OperationsLeft.{operations_left};
ghost use Rattle.scte104_codec.specs.Asked.{splice_requests};
ghost use Rattle.injector.specs.Asking.{fields_of, only_of, served_of, asked_of_multiple, IsStartable};

use crate::refusal::Refusal;
use arrayvec::ArrayVec;
use scte104_codec::{Multi, SpliceRequest};

/// The start of a break, a `splice_insert_type`.
pub(crate) const START_NORMAL: u8 = 1;

/// The start of a break at once, a `splice_insert_type`.
const START_IMMEDIATE: u8 = 2;

/// The end of a break, a `splice_insert_type`.
pub(crate) const END_NORMAL: u8 = 3;

/// The end of a break at once, a `splice_insert_type`.
const END_IMMEDIATE: u8 = 4;

/// A cancel, the last `splice_insert_type`.
const CANCEL: u8 = 5;

/// What is asked for: a `splice_request` that this profile serves, and the avail ids of its message.
#[derive(Debug, Drop)]
pub(crate) struct ServedRequest {
    pub(crate) request: SpliceRequest,
    pub(crate) avails: ArrayVec<u32, 14>,
}

/// The one `splice_request` of a message.
fn only_request(message: &Multi<'_>) -> Result<SpliceRequest, Refusal>
    ensures { result ≡ only_of (splice_requests (operations_left message.now.operations)) }
{
    let mut requests = message.splice_requests();
    let Some(request) = requests.next() else {
        return Err(Refusal::NoRequest);
    };
    if requests.next().is_some() {
        return Err(Refusal::TwoRequests);
    }
    Ok(request)
}

/// What the message asks for by this request.
fn served(message: &Multi<'_>, request: SpliceRequest) -> Result<ServedRequest, Refusal>
    ensures value { result ≡ served_of (operations_left message.now.operations) request }
    ensures startable { IfOk result IsStartable }
{
    if request.splice_insert_type < START_NORMAL || request.splice_insert_type > CANCEL {
        return Err(Refusal::BadType);
    }
    if request.splice_insert_type == START_IMMEDIATE
        || request.splice_insert_type == END_IMMEDIATE
    {
        return Err(Refusal::Unsupported);
    }
    let Some(avails) = message.avail_ids() else {
        return Err(Refusal::TooManyAvails);
    };
    let starts = request.splice_insert_type == START_NORMAL;
    if starts && request.break_duration == 0 {
        return Err(Refusal::NoDuration);
    }
    if starts && !request.auto_return {
        return Err(Refusal::NoReturn);
    }
    if starts && request.pre_roll_time == 0 {
        return Err(Refusal::NoPreRoll);
    }
    Ok(ServedRequest { request, avails })
}

/// What the message asks for, or the first reason for a refusal that lies in the message alone.
pub(crate) fn request_in(message: &Multi<'_>, index: u16) -> Result<ServedRequest, Refusal>
    ensures value { result ≡ asked_of_multiple index (fields_of message.now) }
    ensures startable { IfOk result IsStartable }
{
    if message.version != 0 || message.cue_version != 0 {
        return Err(Refusal::WrongVersion);
    }
    if message.head.index != index {
        return Err(Refusal::WrongIndex);
    }
    if message.time_kind != 0 {
        return Err(Refusal::TimeType);
    }
    if !message.is_known() {
        return Err(Refusal::UnknownOp);
    }
    match only_request(message) {
        Ok(request) => served(message, request),
        Err(refusal) => Err(refusal),
    }
}

//! The words of lines.

ghost use Rattle.std.specs.Prelude.{◌≡◌};
ghost use Rattle.event_logs.specs.Names.{operation_name, kind_name, end_name, edge_name, misfit_name, what_name};

use chain_engine::SessionEnd;
use run_events::{AskedKind, Edge, Misfit, What};

/// The `splice_insert_type` of a request in words (ANSI/SCTE 104).
pub(crate) fn operation_name(kind: u8) -> &'static str
    ensures { result.now ≡ operation_name kind }
{
    match kind {
        1 => "start",
        2 => "start_immediate",
        3 => "end",
        4 => "end_immediate",
        5 => "cancel",
        _ => "reserved",
    }
}

/// The word of a message that has no request to tell of.
pub(crate) fn kind_name(kind: AskedKind) -> &'static str
    ensures { result.now ≡ kind_name kind }
{
    match kind {
        AskedKind::Init => "init",
        AskedKind::Alive => "alive",
        AskedKind::Other => "other",
        AskedKind::Bad => "bad_syntax",
        AskedKind::Splice(_) => "no_single_request",
    }
}

/// Why an automation is not listened to any more.
pub(crate) fn end_name(end: SessionEnd) -> &'static str
    ensures { result.now ≡ end_name end }
{
    match end {
        SessionEnd::Ended => "ended",
        SessionEnd::TakeFailed => "take_failed",
        SessionEnd::BadSize => "bad_size",
        SessionEnd::AnswerFailed => "answer_failed",
    }
}

/// An edge of a break.
pub(crate) fn edge_name(edge: Edge) -> &'static str
    ensures { result.now ≡ edge_name edge }
{
    match edge {
        Edge::Start => "start",
        Edge::End => "end",
    }
}

/// Why an advertisement does not fit.
pub(crate) fn misfit_name(misfit: &Misfit) -> &'static str
    ensures { result.now ≡ misfit_name misfit.now }
{
    match misfit {
        Misfit::NoAdvert => "no_advertisement",
        Misfit::NoStream(_, _) => "no_stream",
        Misfit::Short(_) => "too_short",
    }
}

/// The word of what happened.
pub(crate) fn what_name(what: &What) -> &'static str
    ensures { result.now ≡ what_name what.now }
{
    match what {
        What::Request(_, _, _) => "request",
        What::Session(_) => "session",
        What::Cue(_, _) => "cue",
        What::Begun(_, _, _) => "begun",
        What::Over(_, _, _) => "over",
        What::Cancelled(_) => "cancelled",
        What::EndedEarly(_) => "ended_early",
        What::Edge(_, _) => "edge",
        What::RandomAccess(_, _) => "random_access",
        What::Played(_) => "played",
        What::NotFitted(_, _) => "not_fitted",
        What::Unconditioned(_) => "unconditioned",
        What::Lost(_) => "lost",
        What::NotFound(_) => "not_found",
        What::End => "end",
    }
}

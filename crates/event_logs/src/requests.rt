//! What lines have of messages.

use crate::fields::{Flag, Null, Number, Word};
use crate::names::{kind_name, operation_name};
use codec_text::result_name;
use run_events::{Asked, AskedKind};
use scte104_codec::SpliceRequest;
use std::fmt;

/// The number of a result that is success.
const SUCCESS: u16 = 100;

/// When a break is to begin and how long it lasts.
#[derive(Clone, Copy)]
struct TimingFields {
    /// `pre_roll_time`, in milliseconds.
    pre_roll: u16,
    /// `break_duration`, in tenths of a second.
    duration: u16,
    auto_return: bool,
}

impl fmt::Display for TimingFields {
    ghost use Rattle.std.specs.Prelude.{Some};
    ghost use Rattle.event_logs.specs.Lines.{timing_fields};

    ghost output = { λ t. Some (timing_fields t.pre_roll t.duration t.auto_return) };

    fn fmt<W: fmt::Write>(&self, f: &mut fmt::Formatter<W>) -> fmt::Result {
        let pre_roll = Number("pre_roll", u64::from(self.pre_roll));
        let duration = Number("duration", u64::from(self.duration));
        let auto_return = Flag("auto_return", self.auto_return);
        write!(f, "{pre_roll}{duration}{auto_return}")
    }
}

/// The fields of a request.
#[derive(Clone, Copy)]
struct RequestFields(SpliceRequest);

impl fmt::Display for RequestFields {
    ghost use Rattle.std.specs.Prelude.{Some};
    ghost use Rattle.event_logs.specs.Lines.{request_fields};

    ghost output = { λ t. Some (request_fields t.0) };

    fn fmt<W: fmt::Write>(&self, f: &mut fmt::Formatter<W>) -> fmt::Result {
        let request = self.0;
        let operation = Word("operation", operation_name(request.splice_insert_type));
        let event = Number("event", u64::from(request.splice_event_id));
        let program = Number("program_id", u64::from(request.unique_program_id));
        let timing = TimingFields {
            pre_roll: request.pre_roll_time,
            duration: request.break_duration,
            auto_return: request.auto_return,
        };
        write!(f, "{operation}{event}{program}{timing}")
    }
}

/// The one request of a message, or what the message is that has none, or several.
#[derive(Clone, Copy)]
struct KindFields(AskedKind);

impl fmt::Display for KindFields {
    ghost use Rattle.std.specs.Prelude.{Some};
    ghost use Rattle.event_logs.specs.Lines.{kind_fields};

    ghost output = { λ t. Some (kind_fields t.0) };

    fn fmt<W: fmt::Write>(&self, f: &mut fmt::Formatter<W>) -> fmt::Result {
        match self.0 {
            AskedKind::Splice(Some(request)) => {
                let request = RequestFields(request);
                write!(f, "{request}")
            }
            kind => {
                let operation = Word("operation", kind_name(kind));
                write!(f, "{operation}")
            }
        }
    }
}

/// What a message asked.
#[derive(Clone, Copy)]
pub(crate) struct AskedFields(pub(crate) Asked);

impl fmt::Display for AskedFields {
    ghost use Rattle.std.specs.Prelude.{Some};
    ghost use Rattle.event_logs.specs.Lines.{asked_fields};

    ghost output = { λ t. Some (asked_fields t.0) };

    fn fmt<W: fmt::Write>(&self, f: &mut fmt::Formatter<W>) -> fmt::Result {
        let asked = self.0;
        let message = Number("message", u64::from(asked.message));
        let as_index = Number("as_index", u64::from(asked.as_index));
        let index = Number("index", u64::from(asked.index));
        let kind = KindFields(asked.kind);
        write!(f, "{message}{as_index}{index}{kind}")
    }
}

/// The name of a result, where it has one.
#[derive(Clone, Copy)]
struct NameField<'a>(Option<&'a str>);

impl fmt::Display for NameField<'_> {
    ghost use Rattle.std.specs.Prelude.{Some, option_map};
    ghost use Rattle.event_logs.specs.Lines.{name_field};

    ghost output = { λ t. Some (name_field (option_map (λ name. name.now) t.0)) };

    fn fmt<W: fmt::Write>(&self, f: &mut fmt::Formatter<W>) -> fmt::Result {
        match self.0 {
            None => {
                let verdict = Null("verdict");
                write!(f, "{verdict}")
            }
            Some(name) => {
                let verdict = Word("verdict", name);
                write!(f, "{verdict}")
            }
        }
    }
}

/// The result of a message, and whether the automation has the reply.
#[derive(Clone, Copy)]
pub(crate) struct VerdictFields(pub(crate) u16, pub(crate) bool);

impl fmt::Display for VerdictFields {
    ghost use Rattle.std.specs.Prelude.{Some};
    ghost use Rattle.event_logs.specs.Lines.{verdict_fields};

    ghost output = { λ t. Some (verdict_fields t.0 t.1) };

    fn fmt<W: fmt::Write>(&self, f: &mut fmt::Formatter<W>) -> fmt::Result {
        let (verdict, is_given) = (self.0, self.1);
        let result = Number("result", u64::from(verdict));
        let name = NameField(result_name(verdict));
        let accepted = Flag("accepted", verdict == SUCCESS);
        let answered = Flag("answered", is_given);
        write!(f, "{result}{name}{accepted}{answered}")
    }
}

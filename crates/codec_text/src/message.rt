//! Messages as text.

ghost use Rattle.std.specs.Prelude.{◌≡◌, drop};

use crate::bytes::BytesText;
use crate::reply::{StatedText, stated_result};
use hex_digits::Digits;
use scte104_codec::{BadMessage, Frame, Head, Message, Multi, Operations};
use std::fmt;

/// Where a message ends: nothing is said of a whole one but its size.
#[derive(Clone, Copy)]
pub struct FrameText(pub Frame);

impl fmt::Display for FrameText {
    ghost use Rattle.std.specs.Prelude.{Some};
    ghost use Rattle.codec_text.specs.Texts.{frame_text};

    ghost output = { λ t. Some (frame_text t.0) };

    fn fmt<W: fmt::Write>(&self, f: &mut fmt::Formatter<W>) -> fmt::Result {
        match self.0 {
            Frame::NeedMore(count) => write!(f, "NeedMore {count}"),
            Frame::Whole(size) => write!(f, "Whole {size}"),
            Frame::BadSize => f.write_str("BadSize"),
        }
    }
}

/// `AS_index`, `message_number` and `DPI_PID_index`, in decimal digits.
#[derive(Clone, Copy)]
pub struct HeadText(pub Head);

impl fmt::Display for HeadText {
    ghost use Rattle.std.specs.Prelude.{Some};
    ghost use Rattle.codec_text.specs.Texts.{head_text};

    ghost output = { λ t. Some (head_text t.0) };

    fn fmt<W: fmt::Write>(&self, f: &mut fmt::Formatter<W>) -> fmt::Result {
        let Head {
            as_index,
            number,
            index,
        } = self.0;
        write!(f, "as_index={as_index} number={number} index={index}")
    }
}

/// A message, with the bytes of it whole: its kind, its head and what else is read of it; of a reply, as of any other single operation, the
/// result that it states.
#[derive(Clone, Copy)]
pub struct MessageText<'a> {
    pub message: Message<'a>,
    pub bytes: &'a [u8],
}

impl fmt::Display for MessageText<'_> {
    ghost use Rattle.std.specs.Prelude.{Some};
    ghost use Rattle.codec_text.specs.Texts.{message_text};

    ghost output = { λ t. Some (message_text t.message t.bytes.now) };

    fn fmt<W: fmt::Write>(&self, f: &mut fmt::Formatter<W>) -> fmt::Result {
        match self.message {
            Message::Init(head) => {
                let head = HeadText(head);
                write!(f, "Init {head}")
            }
            Message::Alive(head, data) => {
                let head = HeadText(head);
                let data = BytesText(data);
                write!(f, "Alive {head} data={data}")
            }
            Message::Other(head) => {
                let head = HeadText(head);
                let result = StatedText(stated_result(self.bytes));
                write!(f, "Other {head}{result}")
            }
            Message::Multi(multi) => {
                let text = MultiText(multi);
                write!(f, "{text}")
            }
        }
    }
}

/// The fields of a `multiple_operation_message`, in decimal digits, and its operations.
#[derive(Clone, Copy)]
struct MultiText<'a>(Multi<'a>);

impl fmt::Display for MultiText<'_> {
    ghost use Rattle.std.specs.Prelude.{Some};
    ghost use Rattle.codec_text.specs.Texts.{multiple_of, multiple_text};

    ghost output = { λ t. Some (multiple_text (multiple_of t.0)) };

    fn fmt<W: fmt::Write>(&self, f: &mut fmt::Formatter<W>) -> fmt::Result {
        let head = HeadText(self.0.head);
        let versions = VersionsText(self.0);
        let operations = OperationsText(self.0.operations);
        write!(f, "Multi {head} {versions}{operations}")
    }
}

/// The versions that a `multiple_operation_message` states, and whether it has a time.
#[derive(Clone, Copy)]
struct VersionsText<'a>(Multi<'a>);

impl fmt::Display for VersionsText<'_> {
    ghost use Rattle.std.specs.Prelude.{Some};
    ghost use Rattle.codec_text.specs.Texts.{multiple_of, versions_text};

    ghost output = { λ t. Some (versions_text (multiple_of t.0)) };

    fn fmt<W: fmt::Write>(&self, f: &mut fmt::Formatter<W>) -> fmt::Result {
        let version = self.0.version;
        let cue_version = self.0.cue_version;
        let time_kind = self.0.time_kind;
        write!(
            f,
            "version={version} cue_version={cue_version} time_kind={time_kind}"
        )
    }
}

/// Operations, a space before each: its `opID` in hexadecimal digits and its data; ` no-operations` where there are none.
#[derive(Clone, Copy)]
struct OperationsText<'a>(Operations<'a>);

impl fmt::Display for OperationsText<'_> {
    ghost use Rattle.std.specs.Prelude.{Some};
    ghost use Rattle.scte104_codec.specs.OperationsLeft.{operations_left};
    ghost use Rattle.codec_text.specs.Texts.{operations_text};

    ghost output = { λ t. Some (operations_text (operations_left t.0)) };

    fn fmt<W: fmt::Write>(&self, f: &mut fmt::Formatter<W>) -> fmt::Result {
        let mut rest = self.0;
        if rest.next().is_none() {
            return f.write_str(" no-operations");
        }
        let all = MoreOperations(self.0);
        write!(f, "{all}")
    }
}

/// Operations, a space before each.
#[derive(Clone, Copy)]
struct MoreOperations<'a>(Operations<'a>);

impl fmt::Display for MoreOperations<'_> {
    ghost use Rattle.std.specs.Prelude.{Some};
    ghost use Rattle.scte104_codec.specs.OperationsLeft.{operations_left};
    ghost use Rattle.codec_text.specs.Texts.{more_operations_text};

    ghost output = { λ t. Some (more_operations_text (operations_left t.0)) };

    fn fmt<W: fmt::Write>(&self, f: &mut fmt::Formatter<W>) -> fmt::Result {
        for (op, data) in self.0 {
            let bytes = op.to_be_bytes();
            let op = Digits(&bytes);
            let data = BytesText(data);
            write!(f, " {op}:{data}")?;
        }
        Ok(())
    }
}

/// A message that breaks the syntax, with the bytes of it whole: its kind and head, and an `alive_request`'s data.
#[derive(Clone, Copy)]
pub struct BadMessageText<'a> {
    pub bad: BadMessage,
    pub bytes: &'a [u8],
}

impl fmt::Display for BadMessageText<'_> {
    ghost use Rattle.std.specs.Prelude.{Some};
    ghost use Rattle.codec_text.specs.Texts.{bad_message_text};

    ghost output = { λ t. Some (bad_message_text t.bad t.bytes.now) };

    fn fmt<W: fmt::Write>(&self, f: &mut fmt::Formatter<W>) -> fmt::Result {
        let head = HeadText(self.bad.head);
        if self.bad.multi {
            return write!(f, "BadMulti {head}");
        }
        let data = BytesText(behind_head(self.bytes));
        write!(f, "BadAlive {head} data={data}")
    }
}

/// The size of a `single_operation_message` without data.
const HEAD_SIZE: usize = 13;

/// The data of a `single_operation_message`, which stand behind its head.
fn behind_head(bytes: &[u8]) -> &[u8]
    ensures { result.now ≡ drop 13 bytes.now }
{
    match bytes.get(HEAD_SIZE..) {
        Some(data) => data,
        None => &[],
    }
}

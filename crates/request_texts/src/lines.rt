//! A message as a line of digits.

ghost use Rattle.std.specs.Bool.{OnTrue};
ghost use Rattle.std.specs.Io.KnownBytes.{Appends};
ghost use Rattle.request_texts.specs.Lines.{request_line, PrintsRequest};

use crate::requests::{RequestKind, message_bytes};
use hex_digits::Digits;
use scte104_codec::Head;
use std::fmt;
use std::io::Write;

/// A line with one message.
#[derive(Clone, Copy, Debug, PartialEq, Eq)]
pub struct RequestLine {
    /// The number of the packet before which a script gives the message, from 0; `None` where the line is the message alone.
    pub mark: Option<u64>,
    /// `AS_index`, `message_number` and `DPI_PID_index`.
    pub head: Head,
    /// What is asked for.
    pub kind: RequestKind,
}

/// The text of a line: its mark and a space, where it has one, and the digits of its bytes.
#[derive(Clone, Copy)]
struct MarkedDigits<'a> {
    mark: Option<u64>,
    bytes: &'a [u8],
}

impl fmt::Display for MarkedDigits<'_> {
    ghost use Rattle.std.specs.Prelude.{Some};
    ghost use Rattle.request_texts.specs.Lines.{marked_digits};

    ghost output = { λ t. Some (marked_digits t.mark t.bytes.now) };

    fn fmt<W: fmt::Write>(&self, f: &mut fmt::Formatter<W>) -> fmt::Result {
        let digits = Digits(self.bytes);
        match self.mark {
            Some(mark) => write!(f, "{mark} {digits}"),
            None => write!(f, "{digits}"),
        }
    }
}

/// Prints the line of these bytes, and answers whether it is out.
fn print_line<W: Write>(output: &mut W, mark: Option<u64>, bytes: &[u8]) -> bool
    ensures { OnTrue result (Appends (W.contents output.old) (W.contents output.new) (request_line mark bytes.now)) }
{
    let text = MarkedDigits { mark, bytes };
    writeln!(output, "{text}").is_ok() && output.flush().is_ok()
}

/// Prints the line of a message, with its end, and answers whether it is out: written, and flushed.
pub fn print_request<W: Write>(output: &mut W, line: &RequestLine) -> bool
    ensures { OnTrue result (PrintsRequest line.now (W.contents output.old) (W.contents output.new)) }
{
    let bytes = message_bytes(line.head, line.kind);
    print_line(output, line.mark, bytes.as_slice())
}

//! The cut over lines.

ghost use Rattle.std.specs.Prelude.{◌≡◌, ◌≢◌, false, IfErr, OnOk};
ghost use Rattle.ts_packet.specs.Transfers.{WentWell, LastMovedNone};
ghost use Rattle.unit_cut.specs.Runs.{OutputBlamed};
ghost use Rattle.packet_lines.specs.CutLines.{CutsLines, StopsLines, LineBlamed, cut_fault_of};

use crate::line_reader::LineReader;
use crate::line_writer::LineWriter;
use pes_time::Time33;
use thiserror::Error;
use ts_packet::{GatheringTarget, PausingSource, Pid, ReadFault};
use unit_cut::{CutFault, cut};

/// Why a cut over lines stopped. Lines that went out before it stand.
#[derive(Clone, Copy, Debug, PartialEq, Eq, Drop, Error)]
pub enum LinesFault {
    /// A line is no packet's: it is not 376 upper case hexadecimal digits.
    #[error("a line that is not 376 upper case hexadecimal digits")]
    BadLine,
    /// The cut of the packets stopped. It is never [`ReadFault::Truncated`]: a part of a line is a bad line.
    #[error("{0}")]
    Cut(CutFault),
}

impl LinesFault {
    /// What a cut over a [`LineReader`] answers where [`cut`] stopped so.
    pub fn of_cut(fault: CutFault) -> LinesFault
        ensures fault { cut_fault_of result ≡ fault }
        ensures named { result ≢ LinesFault.Cut (CutFault.Read ReadFault.Truncated) }
    {
        match fault {
            CutFault::Read(ReadFault::Truncated) => LinesFault::BadLine,
            CutFault::Read(_)
            | CutFault::Scrambled
            | CutFault::HeaderSplit
            | CutFault::TimeJump
            | CutFault::Sink(_) => LinesFault::Cut(fault),
        }
    }
}

/// `cut` over lines: reads packets as lines of 376 upper case hexadecimal digits from `input`, and writes what stays as such lines
/// to `output`. What the output keeps back is sent before each read that may wait, and at the end it is the caller's to send.
///
/// # Errors
///
/// The first line that is no packet's, or the first fault of the packets, once the lines of the cut of all before it are out; or a
/// device's fault. A part of a line is out only where a write failed in the middle of it, or where what the output kept back was not sent.
pub fn cut_lines<S: PausingSource, W: GatheringTarget>(
    input: &mut S,
    output: &mut W,
    pid: Pid,
    from: Time33,
    length: u32,
) -> Result<(), LinesFault>
    ensures ok { OnOk result (CutsLines pid from length (S.remaining input.old) (W.contents output.old)
        (W.contents output.new)) }
    ensures err { IfErr result (λ f. StopsLines f pid from length (S.remaining input.old) (W.contents output.old)
        (W.contents output.new)) }
    ensures read { OnOk result (LastMovedNone (S.counts input.old) (S.counts input.new)) }
    ensures wrote { OnOk result (WentWell (W.counts output.old) (W.counts output.new)) }
    ensures reading { IfErr result (λ f. LineBlamed (cut_fault_of f) S.remaining S.counts input.old input.new) }
    ensures writing { IfErr result (λ f. OutputBlamed (cut_fault_of f) (W.counts output.old)
        (W.counts output.new) false) }
{
    let mut reader = LineReader::new(input);
    let mut writer = LineWriter::new(output);
    match cut(&mut reader, &mut writer, pid, from, length) {
        Ok(()) => Ok(()),
        Err(fault) => Err(LinesFault::of_cut(fault)),
    }
}

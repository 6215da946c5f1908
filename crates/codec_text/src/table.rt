//! Program association and program map sections as text.

use crate::flag::FlagText;
use hex_digits::Digits;
use psi_tables::{Entries, Pat, Pmt, Stream};
use std::fmt;
use ts_packet::Pid;

/// A program association section: whether it applies now, and its first program with the PID of its map.
#[derive(Clone, Copy)]
pub struct PatText<'a>(pub Pat<'a>);

impl fmt::Display for PatText<'_> {
    ghost use Rattle.std.specs.Prelude.{Some};
    ghost use Rattle.psi_tables.specs.Association.{association_of};
    ghost use Rattle.codec_text.specs.Texts.{association_text};

    ghost output = { λ t. Some (association_text (association_of t.0.bytes.now)) };

    fn fmt<W: fmt::Write>(&self, f: &mut fmt::Formatter<W>) -> fmt::Result {
        let current = FlagText(self.0.current());
        let first = ProgramText(self.0.first_program());
        write!(f, "Pat current={current} first={first}")
    }
}

/// A program's number and the PID of its map; `none` where there is no program.
#[derive(Clone, Copy)]
struct ProgramText(Option<(u16, Pid)>);

impl fmt::Display for ProgramText {
    ghost use Rattle.std.specs.Prelude.{Some};
    ghost use Rattle.codec_text.specs.Texts.{program_text};

    ghost output = { λ t. Some (program_text t.0) };

    fn fmt<W: fmt::Write>(&self, f: &mut fmt::Formatter<W>) -> fmt::Result {
        match self.0 {
            None => f.write_str("none"),
            Some((program, pid)) => {
                let pid = pid.get();
                write!(f, "{program}:{pid}")
            }
        }
    }
}

/// A program map section: its program, whether it applies now, its section numbers, its PCR PID and its streams.
#[derive(Clone, Copy)]
pub struct PmtText<'a>(pub Pmt<'a>);

impl fmt::Display for PmtText<'_> {
    ghost use Rattle.std.specs.Prelude.{Some};
    ghost use Rattle.psi_tables.specs.ProgramMap.{map_of};
    ghost use Rattle.codec_text.specs.Texts.{map_text};

    ghost output = { λ t. Some (map_text (map_of t.0.bytes.now)) };

    fn fmt<W: fmt::Write>(&self, f: &mut fmt::Formatter<W>) -> fmt::Result {
        let program = self.0.program();
        let current = FlagText(self.0.current());
        let (number, last) = self.0.numbers();
        let pcr = self.0.pcr_pid().get();
        let entries = EntriesText(self.0.entries());
        write!(
            f,
            "Pmt program={program} current={current} numbers={number}/{last}"
        )?;
        write!(f, " pcr={pcr} entries={entries}")
    }
}

/// Streams with commas between: the `stream_type` in hexadecimal digits and the PID; `-` where there are none.
#[derive(Clone, Copy)]
struct EntriesText<'a>(Entries<'a>);

impl fmt::Display for EntriesText<'_> {
    ghost use Rattle.std.specs.Prelude.{Some};
    ghost use Rattle.psi_tables.specs.StreamsLeft.{streams_left};
    ghost use Rattle.codec_text.specs.Texts.{streams_text};

    ghost output = { λ t. Some (streams_text (streams_left t.0)) };

    fn fmt<W: fmt::Write>(&self, f: &mut fmt::Formatter<W>) -> fmt::Result {
        let mut entries = self.0;
        let Some(first) = entries.next() else {
            return f.write_str("-");
        };
        let first = StreamText(first);
        let more = MoreEntries(entries);
        write!(f, "{first}{more}")
    }
}

/// Streams with a comma before each.
#[derive(Clone, Copy)]
struct MoreEntries<'a>(Entries<'a>);

impl fmt::Display for MoreEntries<'_> {
    ghost use Rattle.std.specs.Prelude.{Some};
    ghost use Rattle.psi_tables.specs.StreamsLeft.{streams_left};
    ghost use Rattle.codec_text.specs.Texts.{more_streams_text};

    ghost output = { λ t. Some (more_streams_text (streams_left t.0)) };

    fn fmt<W: fmt::Write>(&self, f: &mut fmt::Formatter<W>) -> fmt::Result {
        for stream in self.0 {
            let stream = StreamText(stream);
            write!(f, ",{stream}")?;
        }
        Ok(())
    }
}

/// A stream: its `stream_type` in hexadecimal digits and its PID.
#[derive(Clone, Copy)]
struct StreamText(Stream);

impl fmt::Display for StreamText {
    ghost use Rattle.std.specs.Prelude.{Some};
    ghost use Rattle.codec_text.specs.Texts.{stream_text};

    ghost output = { λ t. Some (stream_text t.0) };

    fn fmt<W: fmt::Write>(&self, f: &mut fmt::Formatter<W>) -> fmt::Result {
        let bytes = [self.0.kind];
        let kind = Digits(&bytes);
        let pid = self.0.pid.get();
        write!(f, "{kind}:{pid}")
    }
}

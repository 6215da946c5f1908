//! Cues as text.

use crate::flag::FlagText;
use hex_digits::Digits;
use pes_time::Time33;
use scte35_codec::{Avails, Cue, SpliceInsert};
use std::fmt;

/// A cue: its kind, and its fields in the order of the section.
#[derive(Clone, Copy)]
pub struct CueText<'a>(pub Cue<'a>);

impl fmt::Display for CueText<'_> {
    ghost use Rattle.std.specs.Prelude.{Some};
    ghost use Rattle.codec_text.specs.Texts.{cue_text};

    ghost output = { λ t. Some (cue_text t.0) };

    fn fmt<W: fmt::Write>(&self, f: &mut fmt::Formatter<W>) -> fmt::Result {
        match &self.0 {
            Cue::Insert(insert, avails) => {
                let text = InsertText(*insert, *avails);
                write!(f, "{text}")
            }
            Cue::Cancel(event) => {
                let bytes = event.to_be_bytes();
                let event = Digits(&bytes);
                write!(f, "Cancel event={event}")
            }
            Cue::Null => f.write_str("Null"),
            Cue::Other => f.write_str("Other"),
        }
    }
}

/// The fields of a `splice_insert()` and its avails: the event in hexadecimal digits, flags as 0 or 1, times in 90 kHz ticks.
#[derive(Clone, Copy)]
pub struct InsertText<'a>(pub SpliceInsert, pub Avails<'a>);

impl fmt::Display for InsertText<'_> {
    ghost use Rattle.std.specs.Prelude.{Some};
    ghost use Rattle.scte35_codec.specs.AvailsLeft.{avails_left};
    ghost use Rattle.codec_text.specs.Texts.{insert_text};

    ghost output = { λ t. Some (insert_text t.0 (avails_left t.1)) };

    fn fmt<W: fmt::Write>(&self, f: &mut fmt::Formatter<W>) -> fmt::Result {
        let insert = self.0;
        let bytes = insert.event.to_be_bytes();
        let event = Digits(&bytes);
        let out = FlagText(insert.out);
        let time = TimeText(insert.time);
        let length = LengthText(insert.length);
        write!(
            f,
            "Insert event={event} out={out} time={time} length={length}"
        )?;
        let program = insert.program;
        let avail = insert.avail;
        let expected = insert.expected;
        let avails = AvailsText(self.1);
        write!(
            f,
            " program={program} avail={avail} expected={expected} avails={avails}"
        )
    }
}

/// A splice's time in ticks, or `none` where it is immediate or has none.
#[derive(Clone, Copy)]
struct TimeText(Option<Time33>);

impl fmt::Display for TimeText {
    ghost use Rattle.std.specs.Prelude.{Some};
    ghost use Rattle.codec_text.specs.Texts.{time_text};

    ghost output = { λ t. Some (time_text t.0) };

    fn fmt<W: fmt::Write>(&self, f: &mut fmt::Formatter<W>) -> fmt::Result {
        match self.0 {
            None => f.write_str("none"),
            Some(time) => {
                let ticks = time.ticks();
                write!(f, "{ticks}")
            }
        }
    }
}

/// A break's length in ticks and whether it ends by itself, `return`, or not, `stay`; `none` where none is given.
#[derive(Clone, Copy)]
struct LengthText(Option<(bool, Time33)>);

impl fmt::Display for LengthText {
    ghost use Rattle.std.specs.Prelude.{Some};
    ghost use Rattle.codec_text.specs.Texts.{length_text};

    ghost output = { λ t. Some (length_text t.0) };

    fn fmt<W: fmt::Write>(&self, f: &mut fmt::Formatter<W>) -> fmt::Result {
        match self.0 {
            None => f.write_str("none"),
            Some((returns, length)) => {
                let ticks = length.ticks();
                let end = if returns { "return" } else { "stay" };
                write!(f, "{ticks}/{end}")
            }
        }
    }
}

/// Avails in hexadecimal digits with commas between; `-` where there are none.
#[derive(Clone, Copy)]
pub struct AvailsText<'a>(pub Avails<'a>);

impl fmt::Display for AvailsText<'_> {
    ghost use Rattle.std.specs.Prelude.{Some};
    ghost use Rattle.scte35_codec.specs.AvailsLeft.{avails_left};
    ghost use Rattle.codec_text.specs.Texts.{avails_text};

    ghost output = { λ t. Some (avails_text (avails_left t.0)) };

    fn fmt<W: fmt::Write>(&self, f: &mut fmt::Formatter<W>) -> fmt::Result {
        let mut avails = self.0;
        let Some(first) = avails.next() else {
            return f.write_str("-");
        };
        let bytes = first.to_be_bytes();
        let first = Digits(&bytes);
        let more = MoreAvails(avails);
        write!(f, "{first}{more}")
    }
}

/// Avails with a comma before each.
#[derive(Clone, Copy)]
struct MoreAvails<'a>(Avails<'a>);

impl fmt::Display for MoreAvails<'_> {
    ghost use Rattle.std.specs.Prelude.{Some};
    ghost use Rattle.scte35_codec.specs.AvailsLeft.{avails_left};
    ghost use Rattle.codec_text.specs.Texts.{more_avails_text};

    ghost output = { λ t. Some (more_avails_text (avails_left t.0)) };

    fn fmt<W: fmt::Write>(&self, f: &mut fmt::Formatter<W>) -> fmt::Result {
        for avail in self.0 {
            let bytes = avail.to_be_bytes();
            let avail = Digits(&bytes);
            write!(f, ",{avail}")?;
        }
        Ok(())
    }
}

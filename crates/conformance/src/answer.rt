//! The answer to a line.

ghost use Rattle.std.specs.Prelude.{◌≡◌, ℕ, List, OnOk, length};
ghost use Rattle.std.specs.Io.KnownBytes.{Appends};
ghost use Rattle.scte104_codec.specs.declared.framing.Frame.TheVariants.{Whole};
ghost use Rattle.scte104_codec.specs.Framing.{frame_of};
ghost use Rattle.scte104_codec.specs.Reading.{message_of};
ghost use Rattle.scte35_codec.specs.Reading.{cue_of};
ghost use Rattle.codec_text.specs.Texts.{cue_reading_text, message_reading_text};
ghost use Rattle.conformance.specs.Sections.{words_of, packets_in};
ghost use Rattle.conformance.specs.Answers.{ended, front_text, reading_text, IsPacketsAnswer, IsAnswer};

use crate::line::{Codec, Kind, kind_of, word_bytes};
use crate::sections::{found_in, packets_of, write_found};
use crate::table::write_table;
use codec_text::{BadMessageText, CueFaultText, CueText, FrameText, MessageText};
use scte104_codec::Frame;
use std::alloc::Global;
use std::io::{self, Write};

/// Writes the answer to a line, which is given without its line feed.
pub fn write_answer<O: Write>(alloc: Global, output: &mut O, line: &[u8]) -> io::Result<()>
    ensures { OnOk result ((text : List ℕ) × IsAnswer line.now text
        × Appends (O.contents output.old) (O.contents output.new) text) }
{
    match kind_of(line) {
        None => writeln!(output, "bad line"),
        Some((Kind::Sections, words)) => write_sections(alloc, output, words),
        Some((Kind::Bytes(codec), word)) => match word_bytes(alloc, word)? {
            None => writeln!(output, "bad line"),
            Some(bytes) => write_reading(output, codec, bytes.as_slice()),
        },
    }
}

/// Writes what the packets of these words finish.
fn write_sections<O: Write>(alloc: Global, output: &mut O, words: &[u8]) -> io::Result<()>
    ensures { OnOk result ((text : List ℕ) × IsPacketsAnswer (packets_in (words_of words.now)) text
        × Appends (O.contents output.old) (O.contents output.new) text) }
{
    match packets_of(alloc, words)? {
        None => writeln!(output, "bad line"),
        Some(packets) => write_found(output, &found_in(alloc, packets.as_slice())?),
    }
}

/// Writes what these bytes are.
fn write_reading<O: Write>(output: &mut O, codec: Codec, bytes: &[u8]) -> io::Result<()>
    ensures { OnOk result (Appends (O.contents output.old) (O.contents output.new)
        (ended (reading_text codec bytes.now))) }
{
    match codec {
        Codec::Cue => write_cue(output, bytes),
        Codec::Message => write_message(output, bytes),
        Codec::Table => write_table(output, bytes),
    }
}

/// Writes the cue that these bytes are, or why they are none.
fn write_cue<O: Write>(output: &mut O, bytes: &[u8]) -> io::Result<()>
    ensures { OnOk result (Appends (O.contents output.old) (O.contents output.new)
        (ended (cue_reading_text (cue_of bytes.now)))) }
{
    match scte35_codec::read(bytes) {
        Ok(cue) => {
            let text = CueText(cue);
            writeln!(output, "{text}")
        }
        Err(fault) => {
            let text = CueFaultText(fault);
            writeln!(output, "{text}")
        }
    }
}

/// Writes the message at the front of these bytes, or what is missing of it.
#[tactic(auto, using(crate::proofs::FrameLemmas::whole_fits, crate::proofs::FrameLemmas::front_size, crate::proofs::FrameLemmas::front_whole))]
fn write_message<O: Write>(output: &mut O, bytes: &[u8]) -> io::Result<()>
    ensures { OnOk result (Appends (O.contents output.old) (O.contents output.new)
        (ended (front_text bytes.now (frame_of bytes.now)))) }
{
    match scte104_codec::frame(bytes) {
        Frame::Whole(size) => write_whole(output, &bytes[..size]),
        frame => {
            let text = FrameText(frame);
            writeln!(output, "{text}")
        }
    }
}

/// Writes this message, or how it breaks the syntax.
fn write_whole<O: Write>(output: &mut O, message: &[u8]) -> io::Result<()>
    requires { frame_of message.now ≡ Whole (length message.now) }
    ensures { OnOk result (Appends (O.contents output.old) (O.contents output.new)
        (ended (message_reading_text message.now (message_of message.now)))) }
{
    match scte104_codec::read(message) {
        Ok(read) => {
            let text = MessageText {
                message: read,
                bytes: message,
            };
            writeln!(output, "{text}")
        }
        Err(bad) => {
            let text = BadMessageText {
                bad,
                bytes: message,
            };
            writeln!(output, "{text}")
        }
    }
}

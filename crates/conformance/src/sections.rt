//! The answer to packets.

ghost use Rattle.std.specs.Prelude.{◌≡◌, ◌∷◌, ◌++◌, ℕ, List, All, IfOk, OnOk, map, option_map};
ghost use Rattle.psi_section.specs.Sections.{given, sections};
ghost use Rattle.psi_section.specs.Assembling.{IsOf, IsReady, Waits};
ghost use Rattle.psi_section.specs.SectionsLeft.{sections_left};
ghost use Rattle.std.specs.Io.KnownBytes.{Appends};
ghost use Rattle.conformance.specs.Answers.{ended, found_text};
ghost use Rattle.conformance.specs.Sections.{packet_of, packets_in, words_of, at_place, placed, words_behind, IsFoundIn};

use codec_text::BytesText;
use hex_digits::bytes_of;
use psi_section::{Assembler, Sections};
use std::alloc::{AllocError, Global};
use std::io::{self, Write};
use ts_packet::Packet;

/// A section, and the place of the packet that finishes it, from 0 on.
#[derive(Debug, Drop)]
pub struct Finished {
    place: usize,
    section: Vec<u8>,
}

/// What packets of one PID give.
#[derive(Debug, Drop)]
pub struct Found {
    /// The number of sections whose CRC_32 failed.
    bad: u64,
    /// The sections, in order.
    finished: Vec<Finished>,
}

/// The packet that this word spells.
fn packet_of(alloc: Global, word: &[u8]) -> Result<Option<Packet>, AllocError>
    ensures { IfOk result (λ packet. packet ≡ packet_of word.now) }
{
    let Some(bytes) = bytes_of(alloc, word)? else {
        return Ok(None);
    };
    let Ok(bytes) = <&[u8; 188]>::try_from(bytes.as_slice()) else {
        return Ok(None);
    };
    Ok(Packet::from_bytes(bytes).ok())
}

/// The first of these words, and those behind the space that ends it, where there is one.
fn cut_word(words: &[u8]) -> (&[u8], Option<&[u8]>)
    ensures { words_of words.now ≡ result.0.now ∷ words_behind (option_map (λ rest. rest.now) result.1) }
{
    for (place, byte) in words.iter().enumerate() {
        if *byte == b' ' {
            return (&words[..place], Some(&words[place + 1..]));
        }
    }
    (words, None)
}

/// The packets that these words spell, one space between two.
pub fn packets_of(alloc: Global, words: &[u8]) -> Result<Option<Vec<Packet>>, AllocError>
    ensures { IfOk result (λ packets. option_map (λ ps. ps.items) packets ≡ packets_in (words_of words.now)) }
{
    let mut packets = Vec::new(alloc);
    let mut rest = Some(words);
    while let Some(left) = rest {
        let (word, behind) = cut_word(left);
        let Some(packet) = packet_of(alloc, word)? else {
            return Ok(None);
        };
        packets.push(packet)?;
        rest = behind;
    }
    Ok(Some(packets))
}

/// Keeps these sections, which the packet of this place finishes.
fn keep(
    alloc: Global,
    sections: Sections<'_>,
    place: usize,
    finished: &mut Vec<Finished>,
) -> Result<(), AllocError>
    ensures { OnOk result (map placed finished.new.items
        ≡ map placed finished.old.items ++ at_place place (sections_left sections.entry)) }
{
    for section in sections {
        let section = Vec::from_slice(alloc, section)?;
        finished.push(Finished { place, section })?;
    }
    Ok(())
}

/// Feeds the packet of this place, and keeps the sections that it finishes.
fn feed(
    alloc: Global,
    assembler: &mut Assembler,
    place: usize,
    packet: &Packet,
    finished: &mut Vec<Finished>,
) -> Result<(), AllocError>
    requires { IsReady assembler.old }
    ensures ready { OnOk result (IsReady assembler.new) }
    ensures waits { (pid : ℕ) (past : List (List ℕ)) → IsOf pid packet.now → Waits assembler.old pid past →
        OnOk result (Waits assembler.new pid (packet.now ∷ past)) }
    ensures finished { (pid : ℕ) (past : List (List ℕ)) → IsOf pid packet.now → Waits assembler.old pid past →
        OnOk result (map placed finished.new.items
        ≡ map placed finished.old.items ++ at_place place (given pid packet.now past)) }
{
    assembler.feed(packet);
    keep(alloc, assembler.sections(), place, finished)?;
    assembler.pass_over();
    Ok(())
}

/// What these packets of one PID give.
pub fn found_in(alloc: Global, packets: &[Packet]) -> Result<Found, AllocError>
    ensures found { (pid : ℕ) → All (IsOf pid) packets.now → IfOk result (λ found. IsFoundIn pid packets.now found) }
    ensures sections { (pid : ℕ) → All (IsOf pid) packets.now →
        IfOk result (λ found. map (λ finished. finished.section.items) found.finished.items
        ≡ sections pid packets.now) }
{
    let mut assembler = Assembler::new();
    let mut finished = Vec::new(alloc);
    for (place, packet) in packets.iter().enumerate() {
        feed(alloc, &mut assembler, place, packet, &mut finished)?;
    }
    Ok(Found {
        bad: assembler.bad(),
        finished,
    })
}

/// Writes the number of the failed CRCs and each section behind its packet's place.
pub fn write_found<O: Write>(output: &mut O, found: &Found) -> io::Result<()>
    ensures { OnOk result (Appends (O.contents output.old) (O.contents output.new) (ended (found_text found.now))) }
{
    let bad = found.bad;
    write!(output, "bad={bad}")?;
    for finished in &found.finished {
        let place = finished.place;
        let section = BytesText(finished.section.as_slice());
        write!(output, " {place}:{section}")?;
    }
    writeln!(output, "")
}

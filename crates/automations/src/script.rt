//! A script: an automation whose bytes stand in a text, each line before a packet of the network, and whose replies are printed.

ghost use Rattle.std.specs.Prelude.{◌≡◌, ◌<◌, ◌^◌, ◌-◌, ℕ, List, [], Err, nat_lt, drop, find, count_by, false, IfErr, IfOk, IfSome, OnOk};
ghost use Rattle.std.specs.Bool.{OnTrue};
ghost use Rattle.std.specs.Io.KnownBytes.{Appends};
ghost use Rattle.ts_packet.specs.Transfers.{LastMovedNone};
ghost use Rattle.automations.specs.Calls.{OneFlushed, OneFailed};
ghost use Rattle.automations.specs.Scripts.{ScriptBlamed, reply_line};
ghost use Rattle.automations.specs.ScriptLines.{GivesLines, count_due, is_late, late_lines};
ghost use Rattle.automations.specs.ScriptText.{IsNoScript};
ghost use Rattle.automations.specs.ScriptMemory.{LacksMemory};
ghost use Rattle.automations.specs.ScriptReading.{IsLoaded, IsReadFrom, IsReadWhole, IsScriptRead, read_lines};

use crate::calls::Replies;
use crate::script_text::{Line, Reading};
use crate::sessions::Sessions;
use chain_engine::{Automation, Taken};
use hex_digits::spell;
use std::alloc::{Allocator, Global};
use std::io::Write;
use thiserror::Error;
use ts_packet::{DeviceFault, Source};

/// The most reads of a script.
const READS: u64 = 1 << 32;

/// How many bytes of a script are read at a time.
const ROOM: usize = 4_096;

/// How many bytes of a reply's line are put together at a time. The chain's own replies have at most 21 bytes, and their lines 49.
const PIECE: usize = 64;

/// How many bytes of a reply fill a piece with their digits.
const PAIRS: usize = PIECE / 2;

/// Why a script was not loaded.
#[derive(Clone, Copy, Debug, PartialEq, Eq, Drop, Error)]
pub enum ScriptFault {
    /// A line is not a packet's number, a space and 1 to 4,096 bytes in upper case digits, or its number does not rise.
    #[error("a bad line")]
    BadScript,
    /// The script could not be read on.
    #[error("the script could not be read on")]
    Io,
    /// 2^32 reads did not give the script's end.
    #[error("too many reads")]
    Turns,
    /// Memory was refused.
    #[error("memory was refused")]
    OutOfMemory,
}

/// Lines of a script that lie past the end of a network.
#[derive(Clone, Copy, Debug, PartialEq, Eq)]
pub struct LateLines {
    /// How many they are.
    pub count: usize,
    /// The packet before which the bytes of the first of them would come.
    pub first: u64,
}

/// An automation that gives the bytes of a script, and prints the replies. After the script's last line it has nothing more.
#[derive(Drop)]
pub struct Script<W, M: Allocator = Global> {
    bytes: Vec<u8, M>,
    lines: Vec<Line, M>,
    /// The line that comes next.
    next: usize,
    /// Where what is left of its bytes begins.
    begin: usize,
    /// How many pieces were asked for: the number of the packet that comes next.
    packet: u64,
    replies: Replies<W>,
    /// How many replies could not be printed.
    lost: u64,
}

impl<W> Script<W> {
    /// Loads a script, whose lines are a packet's number, counted from 0 and rising from line to line, a space, and the bytes that come
    /// before that packet, 1 to 4,096 of them in upper case hexadecimal digits. Replies are printed to the writer as they come.
    ///
    /// # Errors
    ///
    /// `BadScript` at the first line that is another, `Io` where the reader failed, `Turns` after 2^32 reads, `OutOfMemory` where the
    /// allocator refused memory.
    pub fn load<S: Source>(
        alloc: Global,
        reader: &mut S,
        replies: W,
    ) -> Result<Script<W>, ScriptFault>
    where
        W: Drop,
        ensures lines { IfOk result (λ s. IsLoaded s (S.remaining reader.old)) }
        ensures stops { result ≡ Err ScriptFault.BadScript → IfSome (S.remaining reader.old) IsNoScript }
        ensures memory { result ≡ Err ScriptFault.OutOfMemory
            → IfSome (S.remaining reader.old) (λ text. (reading : Reading Global) × LacksMemory reading text) }
        ensures blamed { IfErr result (λ f. ScriptBlamed f (S.counts reader.old) (S.counts reader.new)) }
        ensures ended { OnOk result (LastMovedNone (S.counts reader.old) (S.counts reader.new)) }
    {
        Script::load_in(alloc, reader, replies)
    }
}

impl<W, M: Allocator> Script<W, M> {
    /// Loads a script whose memory is this allocator's.
    ///
    /// # Errors
    ///
    /// As for [`Script::load`].
    pub fn load_in<S: Source>(
        alloc: M,
        reader: &mut S,
        replies: W,
    ) -> Result<Script<W, M>, ScriptFault>
    where
        M: Copy,
        W: Drop,
        ensures lines { IfOk result (λ s. IsLoaded s (S.remaining reader.old)) }
        ensures stops { result ≡ Err ScriptFault.BadScript → IfSome (S.remaining reader.old) IsNoScript }
        ensures memory { result ≡ Err ScriptFault.OutOfMemory
            → IfSome (S.remaining reader.old) (λ text. (reading : Reading M) × LacksMemory reading text) }
        ensures blamed { IfErr result (λ f. ScriptBlamed f (S.counts reader.old) (S.counts reader.new)) }
        ensures ended { OnOk result (LastMovedNone (S.counts reader.old) (S.counts reader.new)) }
    {
        let mut reading = Reading::new_in(alloc);
        load_into(&mut reading, reader)?;
        Ok(Script::of(reading, replies))
    }

    /// The script of a text that was read to its end.
    pub fn of(reading: Reading<M>, replies: W) -> Script<W, M>
        ensures lines { (text : List ℕ) → IsReadWhole reading text → GivesLines result (read_lines reading) }
        ensures first { result.packet ≡ 0 }
    {
        let (bytes, lines) = reading.into_parts();
        Script {
            bytes,
            lines,
            next: 0,
            begin: 0,
            packet: 0,
            replies: Replies::new(replies),
            lost: 0,
        }
    }

    /// Whether a reply could not be printed.
    pub fn has_lost_a_reply(&self) -> bool
        ensures { result ≡ nat_lt 0 self.now.lost }
    {
        self.lost > 0
    }

    /// The lines whose bytes never come in a network of so many packets, where there are any.
    pub fn late_lines(&self, packets: u64) -> Option<LateLines>
        ensures { result ≡ late_lines packets self.now.lines.items }
    {
        let lines = self.lines.as_slice();
        let first = first_late(lines, packets)?;
        Some(LateLines {
            count: count_late(lines, packets),
            first: first.packet,
        })
    }

    /// How many bytes come before the packet that is next: those that are left of the line with its number.
    fn count_due(&self) -> usize
        ensures due { result ≡ count_due self.now.begin self.now.packet (drop self.now.next self.now.lines.items) }
        ensures within { 0 < result → self.now.next < 2 ^ 64 - 1 }
    {
        let Some(line) = self.lines.get(self.next) else {
            return 0;
        };
        if line.packet > self.packet {
            return 0;
        }
        line.end.saturating_sub(self.begin)
    }
}

/// The first line whose bytes never come in a network of so many packets.
fn first_late(lines: &[Line], packets: u64) -> Option<Line>
    ensures { result ≡ find (is_late packets) lines.now }
{
    lines.iter().copied().find(|line| line.packet >= packets)
}

/// How many lines have bytes that never come in a network of so many packets.
fn count_late(lines: &[Line], packets: u64) -> usize
    ensures { result ≡ count_by (is_late packets) lines.now }
{
    lines.iter().filter(|line| line.packet >= packets).count()
}

/// Reads a text to its end. An interrupted read is tried again.
///
/// # Errors
///
/// As for [`Script::load`]. Then the reading stands in the line that is at fault, where one is.
pub fn load_into<M: Allocator, S: Source>(
    reading: &mut Reading<M>,
    reader: &mut S,
) -> Result<(), ScriptFault>
    ensures stops { IsScriptRead reading.old [] → result ≡ Err ScriptFault.BadScript
        → IfSome (S.remaining reader.old) IsNoScript }
    ensures memory { IsScriptRead reading.old [] → result ≡ Err ScriptFault.OutOfMemory
        → IfSome (S.remaining reader.old) (LacksMemory reading.new) }
    ensures whole { IsScriptRead reading.old [] → OnOk result (IsReadFrom (S.remaining reader.old) reading.new) }
    ensures blamed { IfErr result (λ f. ScriptBlamed f (S.counts reader.old) (S.counts reader.new)) }
    ensures ended { OnOk result (LastMovedNone (S.counts reader.old) (S.counts reader.new)) }
{
    let mut room = [0; ROOM];
    for _turn in 0..READS {
        match reader.read(&mut room) {
            Ok(0) => return reading.finish(),
            Ok(count) => match reading.take_in(&room[..count]) {
                Ok(()) => {}
                Err(fault) => return Err(fault),
            },
            Err(DeviceFault::Interrupted) => {}
            Err(DeviceFault::Failed) => return Err(ScriptFault::Io),
        }
    }
    Err(ScriptFault::Turns)
}

/// Prints the line of a reply, the word and its digits, and answers whether all of it is out.
/// The writer is given the line at once, since each write to it may be a call of the system. Only a line of more than 64 bytes goes out
/// in pieces of so many.
fn print_reply<W: Write>(replies: &mut Replies<W>, reply: &[u8]) -> bool
    ensures printed { OnTrue result (Appends (W.contents replies.old.writer) (W.contents replies.new.writer) (reply_line reply.now)) }
    ensures flushed { OnTrue result (OneFlushed replies.old.counts replies.new.counts) }
    ensures lost { result ≡ false → OneFailed replies.old.counts replies.new.counts }
{
    let mut line = [0; PIECE];
    line[..6].copy_from_slice(b"reply ");
    // In bytes of a reply: the word has the room of three.
    let mut filled = 3;
    let mut rest = reply;
    while rest.len() >= PAIRS - filled {
        let (first, behind) = rest.split_at(PAIRS - filled);
        spell(&mut line, filled, first);
        if replies.write_all(&line).is_err() {
            return false;
        }
        filled = 0;
        rest = behind;
    }
    spell(&mut line, filled, rest);
    let end = 2 * (filled + rest.len());
    line[end] = b'\n';
    replies.write_all(&line[..=end]).is_ok() && replies.flush().is_ok()
}

impl<W: Write, M: Allocator> Automation for Script<W, M> {
    ghost use Rattle.std.specs.Prelude.{[], ◌∷◌, length};
    ghost use Rattle.chain_engine.specs.Automation.{CountsAnswer, CountsTake, IsRoomFor, take_of, answer_of};
    ghost use Rattle.automations.specs.ScriptTakes.{ScriptTakes};
    ghost use Rattle.automations.specs.ScriptAnswers.{ScriptAnswers};
    ghost use Rattle.automations.specs.ScriptExchanges.{ScriptExchanges, ScriptExchanges-refl, ScriptExchanges-trans};

    ghost exchanges = { λ s es t. ScriptExchanges W.contents s es t };

    ghost failures = { λ s. s.lost };

    ghost exchanges_refl = { λ s. ScriptExchanges-refl W.contents s };

    ghost exchanges_trans = { λ s t u xs ys h k. ScriptExchanges-trans W.contents s t u xs ys h k };

    #[inline(always)]
    fn take(&mut self, room: &mut [u8]) -> Taken
        requires room { length room.old ≡ 4096 }
        ensures bound { IsRoomFor (length room.new) result }
        ensures takes { ScriptTakes self.old (take_of result room.new ∷ []) self.new }
        ensures answers { ScriptAnswers W.contents self.old [] self.new }
        ensures failures { CountsTake result self.old.lost self.new.lost }
    {
        let due = self.count_due();
        self.packet = self.packet.saturating_add(1);
        if due == 0 {
            return Taken::Nothing;
        }
        let count = due.min(room.len());
        let end = self.begin.saturating_add(count);
        let Some(bytes) = self.bytes.get(self.begin..end) else {
            return Taken::Nothing;
        };
        room[..count].copy_from_slice(bytes);
        self.begin = end;
        if count == due {
            self.next = self.next.saturating_add(1);
        }
        Taken::Bytes(count)
    }

    fn answer(&mut self, reply: &[u8]) -> bool
        ensures takes { ScriptTakes self.old [] self.new }
        ensures failures { CountsAnswer result self.old.lost self.new.lost }
        ensures answers { ScriptAnswers W.contents self.old (answer_of reply.now result ∷ []) self.new }
        ensures flushed { OnTrue result (OneFlushed self.old.replies.counts self.new.replies.counts) }
        ensures lost { result ≡ false → OneFailed self.old.replies.counts self.new.replies.counts }
    {
        if print_reply(&mut self.replies, reply) {
            return true;
        }
        self.lost = self.lost.saturating_add(1);
        false
    }
}

impl<W, M: Allocator> Sessions for Script<W, M> {
    ghost closed_so_far = { λ s. 0 };

    #[inline(always)]
    fn closed(&self) -> u64 {
        0
    }
}

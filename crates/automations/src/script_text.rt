//! The text of a script, read byte by byte, and by pairs of digits where two come next.

ghost use Rattle.std.specs.Prelude.{◌≡◌, ◌≤◌, ◌<◌, ◌+◌, ◌-◌, ◌*◌, ◌^◌, ℕ, List, [], ◌∷◌, ◌++◌, length, true, Some, None, Err, nat_le};
ghost use Rattle.std.specs.Prelude.{IfErr, IfOk, OnOk};
ghost use Rattle.std.specs.Char.{is_ascii_digit};
ghost use Rattle.psi_section.specs.Assembling.{capped};
ghost use Rattle.hex_digits.specs.Digits.{digit_value};
ghost use Rattle.automations.specs.Scripts.{IsOfText};
ghost use Rattle.automations.specs.ScriptReading.{IsAt, IsBehind, IsInLine, IsReading, IsReadOn, IsSameReading, IsScriptRead, IsTextAt, IsReadWhole};
ghost use Rattle.automations.specs.ScriptReading.{BytesSoFar, StoppedIn, read_lines, next_line_number};
ghost use Rattle.automations.specs.ScriptText.{BeginsNoScript, IsNoScript, SpellsLines};
ghost use Rattle.automations.specs.ScriptLineFaults.{wrong_at, wrong_byte, wrong_end};
ghost use Rattle.automations.specs.ScriptMemory.{AsksMemory, AsksForLine, RefusedAt, RefusedAtEnd};

use crate::line_fault::ScriptLineFault;
use crate::script::ScriptFault;
use hex_digits::value_of;
use std::alloc::{Allocator, Global};

/// The most bytes of a line.
const MOST: usize = 4_096;

/// A line of a script.
#[derive(Clone, Copy, Debug, PartialEq, Eq)]
pub struct Line {
    /// The packet before which the bytes come, from 0.
    pub packet: u64,
    /// Where its bytes end, behind those of the lines before it.
    pub end: usize,
}

/// Where in a line the reading stands.
#[derive(Clone, Copy, Debug, PartialEq, Eq)]
enum Place {
    /// Before its first byte.
    Start,
    /// In the packet's number, so far this.
    Number(u64),
    /// Behind the space, where a whole byte may begin; so many bytes came.
    Bytes(u64, usize),
    /// Behind the first digit of a byte, of this value; so many bytes came before it.
    Half(u64, usize, u8),
}

/// The lines of a script, as far as it was read.
#[derive(Drop)]
pub struct Reading<M: Allocator = Global> {
    bytes: Vec<u8, M>,
    lines: Vec<Line, M>,
    place: Place,
    /// The byte at which the reading stopped, where one is at fault.
    bad: Option<u8>,
}

/// The number with a decimal digit more.
fn with_digit(number: u64, digit: u8) -> Result<u64, ScriptFault>
    ensures value { IfOk result (λ v. (is_ascii_digit digit ≡ true) × (v ≡ number * 10 + (digit - 48)) × (v < 2 ^ 64)) }
    ensures none { IfErr result (λ _. is_ascii_digit digit ≡ true → 2 ^ 64 ≤ number * 10 + (digit - 48)) }
    ensures refused { IfErr result (λ fault. fault ≡ ScriptFault.BadScript) }
{
    let Some(value) = digit.checked_sub(b'0') else {
        return Err(ScriptFault::BadScript);
    };
    if value > 9 {
        return Err(ScriptFault::BadScript);
    }
    let Some(tens) = number.checked_mul(10) else {
        return Err(ScriptFault::BadScript);
    };
    match tens.checked_add(u64::from(value)) {
        Some(sum) => Ok(sum),
        None => Err(ScriptFault::BadScript),
    }
}

/// What is wrong with a line at this place, where this byte comes next.
fn wrong_byte(place: Place, byte: u8) -> ScriptLineFault
    ensures { result ≡ wrong_byte place byte }
{
    match place {
        Place::Start => ScriptLineFault::NoNumber,
        Place::Number(_) if byte == b' ' => ScriptLineFault::NotRising,
        Place::Number(_) => ScriptLineFault::NoNumber,
        Place::Bytes(_, _) if byte == b'\n' => ScriptLineFault::NoBytes,
        Place::Bytes(_, count) if count == MOST => ScriptLineFault::TooLong,
        Place::Bytes(_, _) => ScriptLineFault::NoDigit,
        Place::Half(_, _, _) if byte == b'\n' => ScriptLineFault::HalfByte,
        Place::Half(_, _, _) => ScriptLineFault::NoDigit,
    }
}

/// What is wrong with a line at this place, where the text ends.
fn wrong_end(place: Place) -> ScriptLineFault
    ensures { result ≡ wrong_end place }
{
    match place {
        Place::Start | Place::Number(_) => ScriptLineFault::NoNumber,
        Place::Bytes(_, _) => ScriptLineFault::NoBytes,
        Place::Half(_, _, _) => ScriptLineFault::HalfByte,
    }
}

/// The value of a hexadecimal digit.
fn half(byte: u8) -> Result<u8, ScriptFault>
    ensures value { IfOk result (λ value. digit_value byte ≡ Some value) }
    ensures none { IfErr result (λ _. digit_value byte ≡ None) }
    ensures below { IfOk result (λ value. value < 16) }
    ensures refused { IfErr result (λ fault. fault ≡ ScriptFault.BadScript) }
{
    match value_of(byte) {
        Some(value) => Ok(value),
        None => Err(ScriptFault::BadScript),
    }
}

impl<M: Allocator + Copy> Reading<M> {
    /// Nothing was read; its memory is this allocator's.
    pub fn new_in(alloc: M) -> Reading<M>
        ensures { IsScriptRead result [] }
    {
        Reading {
            bytes: Vec::new(alloc),
            lines: Vec::new(alloc),
            place: Place::Start,
            bad: None,
        }
    }
}

impl<M: Allocator> Reading<M> {
    /// Whether lines with this number rise from those before.
    fn rises(&self, packet: u64) -> bool
        ensures { result ≡ nat_le (next_line_number 0 self.now.lines.items) packet }
    {
        match self.lines.last() {
            Some(line) => line.packet < packet,
            None => true,
        }
    }

    /// Ends a line behind so many bytes.
    fn end_line(&mut self, packet: u64, count: usize) -> Result<(), ScriptFault>
        ensures whole { IsInLine self.old.bytes.items self.old.lines.items packet count
            → OnOk result (IsBehind self.new.bytes.items self.new.lines.items 0) }
        ensures text { (text : List ℕ) → IsInLine self.old.bytes.items self.old.lines.items packet count
            → BytesSoFar self.old.bytes.items self.old.lines.items packet [] text
            → OnOk result (SpellsLines 0 (text ++ 10 ∷ []) (read_lines self.new)) }
        ensures empty { result ≡ Err ScriptFault.BadScript → count ≡ 0 }
        ensures same { result ≡ Err ScriptFault.BadScript → self.new ≡ self.old }
        ensures asks { result ≡ Err ScriptFault.OutOfMemory → 0 < count }
        ensures kept { IfErr result (λ _. IsSameReading self.old self.new) }
        ensures refused { IfErr result IsOfText }
    {
        if count == 0 {
            return Err(ScriptFault::BadScript);
        }
        let end = self.bytes.len();
        let Ok(()) = self.lines.push(Line { packet, end }) else {
            return Err(ScriptFault::OutOfMemory);
        };
        Ok(())
    }

    /// Where the reading stands behind one byte more.
    fn behind(&mut self, byte: u8) -> Result<Place, ScriptFault>
        ensures at { IsReading self.old → IfOk result (IsAt self.new.bytes.items self.new.lines.items) }
        ensures text { (text : List ℕ) → IsScriptRead self.old text
            → IfOk result (λ place. IsTextAt self.new.bytes.items self.new.lines.items place (text ++ byte ∷ [])) }
        ensures stops { (text : List ℕ) → IsScriptRead self.old text → result ≡ Err ScriptFault.BadScript
            → BeginsNoScript (text ++ byte ∷ []) }
        ensures same { result ≡ Err ScriptFault.BadScript → self.new ≡ self.old }
        ensures asks { result ≡ Err ScriptFault.OutOfMemory → AsksMemory self.old.place byte }
        ensures kept { IfErr result (λ _. IsSameReading self.old self.new) }
        ensures refused { IfErr result IsOfText }
    {
        match self.place {
            Place::Start => Ok(Place::Number(with_digit(0, byte)?)),
            Place::Number(number) => {
                if byte != b' ' {
                    return Ok(Place::Number(with_digit(number, byte)?));
                }
                if self.rises(number) {
                    Ok(Place::Bytes(number, 0))
                } else {
                    Err(ScriptFault::BadScript)
                }
            }
            Place::Bytes(packet, count) => {
                if byte == b'\n' {
                    return match self.end_line(packet, count) {
                        Ok(()) => Ok(Place::Start),
                        Err(fault) => Err(fault),
                    };
                }
                if count == MOST {
                    return Err(ScriptFault::BadScript);
                }
                Ok(Place::Half(packet, count, half(byte)?))
            }
            Place::Half(packet, count, high) => {
                let low = half(byte)?;
                let Ok(()) = self.bytes.push(high % 16 * 16 + low) else {
                    return Err(ScriptFault::OutOfMemory);
                };
                Ok(Place::Bytes(packet, count.saturating_add(1)))
            }
        }
    }

    /// Reads whole bytes of a line, for as long as two digits come next, and answers what is left of the text. Nearly all of a script is
    /// such digits, and so they are read in a loop of their own.
    ///
    /// # Errors
    ///
    /// `OutOfMemory` where memory was refused.
    fn take_bytes<'a>(&mut self, part: &'a [u8]) -> Result<&'a [u8], ScriptFault>
        ensures read { IfOk result (λ rest. IsReadOn self.old self.new part.now rest.now) }
        ensures shorter { IfOk result (λ rest. length rest.now ≤ length part.now) }
        ensures memory { IfErr result (λ fault. fault ≡ ScriptFault.OutOfMemory) }
        ensures asks { (text : List ℕ) → IsScriptRead self.old text → IfErr result (λ _. RefusedAt self.new (text ++ part.now)) }
    {
        let Place::Bytes(packet, before) = self.place else {
            return Ok(part);
        };
        let mut count = before;
        let mut rest = part;
        while rest.len() >= 2 && count < MOST {
            let (Some(high), Some(low)) = (value_of(rest[0]), value_of(rest[1])) else {
                break;
            };
            let Ok(()) = self.bytes.push(16 * high + low) else {
                self.place = Place::Half(packet, count, high);
                return Err(ScriptFault::OutOfMemory);
            };
            count += 1;
            let (_, after) = rest.split_at(2);
            rest = after;
        }
        self.place = Place::Bytes(packet, count);
        Ok(rest)
    }

    /// Reads bytes of the text.
    ///
    /// # Errors
    ///
    /// `BadScript` in the first line that is none, `OutOfMemory` where memory was refused.
    pub fn take_in(&mut self, part: &[u8]) -> Result<(), ScriptFault>
        ensures ok { (text : List ℕ) → IsScriptRead self.old text → OnOk result (IsScriptRead self.new (text ++ part.now)) }
        ensures stops { (text : List ℕ) → IsScriptRead self.old text → result ≡ Err ScriptFault.BadScript
            → BeginsNoScript (text ++ part.now) }
        ensures stopped { (text : List ℕ) → IsScriptRead self.old text → result ≡ Err ScriptFault.BadScript
            → StoppedIn self.new (text ++ part.now) }
        ensures memory { (text : List ℕ) → IsScriptRead self.old text → result ≡ Err ScriptFault.OutOfMemory
            → RefusedAt self.new (text ++ part.now) }
        ensures refused { IfErr result IsOfText }
    {
        let mut rest = part;
        while let Some((byte, behind)) = rest.split_first() {
            match self.behind(*byte) {
                Ok(place) => self.place = place,
                Err(fault) => {
                    self.bad = Some(*byte);
                    return Err(fault);
                }
            }
            match self.take_bytes(behind) {
                Ok(left) => rest = left,
                Err(fault) => return Err(fault),
            }
        }
        Ok(())
    }

    /// The end of the text, behind which the end of the last line may be missing.
    ///
    /// # Errors
    ///
    /// As for [`Reading::take_in`].
    pub fn finish(&mut self) -> Result<(), ScriptFault>
        ensures ok { (text : List ℕ) → IsScriptRead self.old text → OnOk result (IsReadWhole self.new text) }
        ensures stops { (text : List ℕ) → IsScriptRead self.old text → result ≡ Err ScriptFault.BadScript → IsNoScript text }
        ensures memory { (text : List ℕ) → IsScriptRead self.old text → result ≡ Err ScriptFault.OutOfMemory
            → RefusedAtEnd self.new text }
        ensures refused { IfErr result IsOfText }
    {
        match self.place {
            Place::Start => Ok(()),
            Place::Bytes(packet, count) => self.end_line(packet, count),
            Place::Number(_) => Err(ScriptFault::BadScript),
            Place::Half(_, _, _) => Err(ScriptFault::BadScript),
        }
    }

    /// The number, from 1, of the line in which the reading stands.
    pub fn line(&self) -> usize
        ensures { result ≡ capped (length self.now.lines.items + 1) }
    {
        self.lines.len().saturating_add(1)
    }

    /// What is wrong with that line, where the reading stopped in it with `BadScript`.
    pub fn line_fault(&self) -> ScriptLineFault
        ensures { result ≡ wrong_at self.now.place self.now.bad }
    {
        match self.bad {
            Some(b'\r') => ScriptLineFault::CarriageReturn,
            Some(byte) => wrong_byte(self.place, byte),
            None => wrong_end(self.place),
        }
    }

    /// The bytes of all lines, and the lines.
    pub fn into_parts(self) -> (Vec<u8, M>, Vec<Line, M>)
        ensures bytes { result.0 ≡ self.bytes }
        ensures lines { result.1 ≡ self.lines }
    {
        let Reading {
            bytes,
            lines,
            place: _,
            bad: _,
        } = self;
        (bytes, lines)
    }
}

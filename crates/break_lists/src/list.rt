//! The lines of a list.

ghost use Rattle.std.specs.Prelude.{◌≡◌, ◌≤◌, ◌++◌, ◌∷◌, [], length, Option, Some, None, OnOk, IfOk, IfErr};
ghost use Rattle.break_lists.specs.Lines.{line_plan};
ghost use Rattle.break_lists.specs.Lists.{text_lines, lines_left, bytes_left, with_planned};
ghost use Rattle.break_lists.specs.Lists.{planned_from, or_refused, refused_from, RefusesList};

use crate::line::{BreakLine, Expected, line_plan};
use crate::words::cut_at;
use std::alloc::Global;
use thiserror::Error;

/// What a line plans, with its number.
#[derive(Clone, Copy, Debug, PartialEq, Eq)]
pub struct NumberedLine {
    /// Its number in the list, from 1; it stops at the greatest number.
    pub number: u64,
    /// What it plans.
    pub line: BreakLine,
}

/// A line that plans nothing, and is neither blank nor a comment.
#[derive(Clone, Copy, Debug, PartialEq, Eq, Drop, Error)]
#[error("line {number}: expected {expected}")]
pub struct RefusedLine {
    /// Its number in the list, from 1; it stops at the greatest number.
    pub number: u64,
    /// What was expected.
    pub expected: Expected,
}

/// Why a list was not read.
#[derive(Clone, Copy, Debug, PartialEq, Eq, Drop, Error)]
pub enum BreaksFault {
    /// The first line that is none.
    #[error("{0}")]
    Line(RefusedLine),
    /// Memory was refused.
    #[error("memory was refused")]
    OutOfMemory,
}

/// What the lines of a text plan, in their order. The line feed behind the last may be missing.
///
/// # Errors
///
/// `Line` at the first line that is none, `OutOfMemory` where the allocator refused memory.
pub fn read_breaks(alloc: Global, text: &[u8]) -> Result<Vec<NumberedLine>, BreaksFault>
    ensures planned { IfOk result (λ v. v.items ≡ planned_from 1 (text_lines text.now)) }
    ensures taken { IfOk result (λ _. refused_from 1 (text_lines text.now) ≡ None) }
    ensures refused { IfErr result (λ f. RefusesList f (refused_from 1 (text_lines text.now))) }
{
    let mut planned = Vec::new(alloc);
    let mut number = 1;
    let mut left = Some(text);
    while let Some(rest) = left {
        let (line, behind) = next_line(rest);
        match take_line(&mut planned, number, line) {
            Ok(()) => {}
            Err(fault) => return Err(fault),
        }
        number = number.saturating_add(1);
        left = behind;
    }
    Ok(planned)
}

/// The first line of a text, and the text of the others, where there are others.
fn next_line(text: &[u8]) -> (&[u8], Option<&[u8]>)
    ensures lines { text_lines text.now ≡ result.0.now ∷ lines_left result.1 }
    ensures shorter { bytes_left result.1 ≤ length text.now }
{
    cut_at(text, b'\n')
}

/// Takes what a line plans behind what is planned.
fn take_line(planned: &mut Vec<NumberedLine>, number: u64, line: &[u8]) -> Result<(), BreaksFault>
    ensures planned { OnOk result (planned.new.items
        ≡ planned.old.items ++ with_planned number (line_plan line.now) []) }
    ensures taken { OnOk result (or_refused number (line_plan line.now) None ≡ None) }
    ensures refused { (rest : Option RefusedLine) → IfErr result (λ f. RefusesList f (or_refused number (line_plan line.now) rest)) }
{
    match line_plan(line) {
        Ok(None) => Ok(()),
        Ok(Some(line)) => match planned.push(NumberedLine { number, line }) {
            Ok(()) => Ok(()),
            Err(_) => Err(BreaksFault::OutOfMemory),
        },
        Err(expected) => Err(BreaksFault::Line(RefusedLine { number, expected })),
    }
}

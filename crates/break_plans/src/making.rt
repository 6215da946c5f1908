//! A plan is made.

ghost use Rattle.std.specs.Prelude.{◌≡◌, IfOk};
ghost use Rattle.break_plans.specs.Plans.{AllPlanned, IsPlan};

use crate::drafts::Setting;
use crate::judging::{judge, taken};
use crate::order::asked_in_order;
use crate::planned::{Plan, PlannedLine};
use break_lists::NumberedLine;
use std::alloc::{AllocError, Global};

/// What each of the lines comes to.
fn plan_lines(
    alloc: Global,
    setting: &Setting<'_>,
    list: &[NumberedLine],
) -> Result<Vec<PlannedLine>, AllocError>
    ensures { IfOk result (λ v. AllPlanned setting.now list.now v.items) }
{
    let mut lines = Vec::new(alloc);
    let mut rest = list;
    while let Some((line, behind)) = rest.split_first() {
        lines.push(PlannedLine {
            number: line.number,
            draft: setting.draft(line),
        })?;
        rest = behind;
    }
    Ok(lines)
}

/// Plans the lines of a list.
///
/// # Errors
///
/// Where the allocator refused memory.
pub fn plan(alloc: Global, setting: &Setting<'_>, list: &[NumberedLine]) -> Result<Plan, AllocError>
    ensures { IfOk result (IsPlan setting.now list.now) }
{
    let lines = plan_lines(alloc, setting, list)?;
    let asked = asked_in_order(alloc, lines.as_slice())?;
    let judged = judge(alloc, setting, asked.as_slice())?;
    let requests = taken(alloc, judged.as_slice())?;
    Ok(Plan {
        lines,
        judged,
        requests,
    })
}

//! The subcommands, each by its name, with the options that it is read by and those of them that have to be given.

ghost use Rattle.std.specs.Prelude.{codes};
ghost use Rattle.command_lines.specs.Naming.{IsCalled, cut_calls, inject_calls, run_calls, splice_calls, services_calls, inspect_calls};
ghost use Rattle.command_lines.specs.Naming.{plan_calls, start_calls, end_calls, cancel_calls, session_calls};

use crate::command::CUT;
use crate::inject_options::{INJECT, RUN};
use crate::inspect_options::INSPECT;
use crate::plan_options::PLAN;
use crate::request_help::{ALIVE, CANCEL, END, INIT, START};
use crate::services_options::SERVICES;
use crate::splice_options::SPLICE;
use crate::subcommand::Subcommand;

/// The subcommand `cut`.
pub(crate) fn cut() -> Subcommand
    ensures { IsCalled result (codes "cut") cut_calls }
{
    CUT
}

/// The subcommand `inject`.
pub(crate) fn inject() -> Subcommand
    ensures { IsCalled result (codes "inject") inject_calls }
{
    INJECT
}

/// The subcommand `run`.
pub(crate) fn run() -> Subcommand
    ensures { IsCalled result (codes "run") run_calls }
{
    RUN
}

/// The subcommand `splice`.
pub(crate) fn splice() -> Subcommand
    ensures { IsCalled result (codes "splice") splice_calls }
{
    SPLICE
}

/// The subcommand `services`.
pub(crate) fn services() -> Subcommand
    ensures { IsCalled result (codes "services") services_calls }
{
    SERVICES
}

/// The subcommand `inspect`.
pub(crate) fn inspect() -> Subcommand
    ensures { IsCalled result (codes "inspect") inspect_calls }
{
    INSPECT
}

/// The subcommand `plan`.
pub(crate) fn plan() -> Subcommand
    ensures { IsCalled result (codes "plan") plan_calls }
{
    PLAN
}

/// The kind `start` of a message of `request`.
pub(crate) fn start() -> Subcommand
    ensures { IsCalled result (codes "start") start_calls }
{
    START
}

/// The kind `end` of a message of `request`.
pub(crate) fn end() -> Subcommand
    ensures { IsCalled result (codes "end") end_calls }
{
    END
}

/// The kind `cancel` of a message of `request`.
pub(crate) fn cancel() -> Subcommand
    ensures { IsCalled result (codes "cancel") cancel_calls }
{
    CANCEL
}

/// The kind `init` of a message of `request`.
pub(crate) fn init() -> Subcommand
    ensures { IsCalled result (codes "init") session_calls }
{
    INIT
}

/// The kind `alive` of a message of `request`.
pub(crate) fn alive() -> Subcommand
    ensures { IsCalled result (codes "alive") session_calls }
{
    ALIVE
}

//! Why a run of the program stopped, and the name that is printed.

ghost use Rattle.std.specs.Prelude.{◌≡◌};
ghost use Rattle.passages.specs.Names.{read_name, put_name, cut_name, network_name, run_name};
ghost use Rattle.passages.specs.Names.{script_name, ad_name, list_name, services_name, fault_name};

use ad_library::AdFault;
use ad_lists::ListFault;
use automations::ScriptFault;
use chain_engine::RunFault;
use packet_lines::LinesFault;
use psi_tables::{FeedFault, NetworkFault};
use service_lists::ServicesFault;
use ts_packet::{PutFault, ReadFault};
use unit_cut::CutFault;

/// Why a run of the program stopped.
#[derive(Clone, Copy, Debug, PartialEq, Eq, Drop)]
pub enum ProgramFault {
    /// The cut stopped, or a line is no packet's.
    Lines(LinesFault),
    /// A run with cues stopped.
    Run(RunFault),
    /// The script was not loaded.
    Script(ScriptFault),
    /// The list of the advertisements was not loaded.
    List(ListFault),
    /// The list of the services was not loaded.
    Services(ServicesFault),
    /// No automation system could connect.
    Accept,
    /// A reply or the report could not be printed.
    Print,
    /// What happened could not be written.
    Log,
    /// The output could not be flushed at the end.
    Unflushed,
    /// A file could not be opened.
    File,
    /// Memory was refused.
    OutOfMemory,
}

/// The name of a fault of a reader.
fn read_name(fault: ReadFault) -> &'static str
    ensures { result.now ≡ read_name fault }
{
    match fault {
        ReadFault::Truncated => "Truncated",
        ReadFault::SyncLost => "SyncLost",
        ReadFault::BadAdaptation => "BadAdaptation",
        ReadFault::Io => "Io",
        ReadFault::Turns => "Turns",
        ReadFault::Failed => "Failed",
    }
}

/// The name of a fault of a sink.
fn put_name(fault: PutFault) -> &'static str
    ensures { result.now ≡ put_name fault }
{
    match fault {
        PutFault::Io => "Io",
        PutFault::Stuck => "Stuck",
        PutFault::Turns => "Turns",
        PutFault::Failed => "Failed",
    }
}

/// The name of a fault of a cut.
fn cut_name(fault: CutFault) -> &'static str
    ensures { result.now ≡ cut_name fault }
{
    match fault {
        CutFault::Read(inner) => read_name(inner),
        CutFault::Scrambled => "Scrambled",
        CutFault::HeaderSplit => "HeaderSplit",
        CutFault::TimeJump => "TimeJump",
        CutFault::Sink(inner) => put_name(inner),
    }
}

/// The name of what is wrong with a network.
fn network_name(fault: NetworkFault) -> &'static str
    ensures { result.now ≡ network_name fault }
{
    match fault {
        NetworkFault::TimeJump => "TimeJump",
        NetworkFault::HeaderSplit => "HeaderSplit",
        NetworkFault::Scrambled => "Scrambled",
        NetworkFault::ProgramChanged => "ProgramChanged",
        NetworkFault::TooManyStreams => "TooManyStreams",
        NetworkFault::BadPids => "BadPids",
        NetworkFault::PmtTooLong => "PmtTooLong",
        NetworkFault::CuePidUsed => "CuePidUsed",
        NetworkFault::Sections => "Sections",
    }
}

/// The name of a fault of a run.
fn run_name(fault: RunFault) -> &'static str
    ensures { result.now ≡ run_name fault }
{
    match fault {
        RunFault::Read(inner) => read_name(inner),
        RunFault::Feed(FeedFault::Network(inner)) => network_name(inner),
        RunFault::Feed(FeedFault::Sink(inner)) => put_name(inner),
        RunFault::Feed(FeedFault::Failed) => "Failed",
        RunFault::SharedPid => "SharedPid",
    }
}

/// The name of a script's fault.
fn script_name(fault: ScriptFault) -> &'static str
    ensures { result.now ≡ script_name fault }
{
    match fault {
        ScriptFault::BadScript => "BadScript",
        ScriptFault::Io => "Io",
        ScriptFault::Turns => "Turns",
        ScriptFault::OutOfMemory => "OutOfMemory",
    }
}

/// The name of a fault of an advertisement.
fn ad_name(fault: AdFault) -> &'static str
    ensures { result.now ≡ ad_name fault }
{
    match fault {
        AdFault::Exists => "Exists",
        AdFault::Many => "Many",
        AdFault::Packets(inner) => read_name(inner),
        AdFault::Io => "Io",
        AdFault::Large => "Large",
        AdFault::NoProgram => "NoProgram",
        AdFault::Sections => "Sections",
        AdFault::TooManyStreams => "TooManyStreams",
        AdFault::BadPids => "BadPids",
        AdFault::ProgramChanged => "ProgramChanged",
        AdFault::Scrambled => "Scrambled",
        AdFault::HeaderSplit => "HeaderSplit",
        AdFault::TimeJump => "TimeJump",
        AdFault::Loss => "Loss",
        AdFault::NoTime => "NoTime",
        AdFault::OutOfMemory => "OutOfMemory",
    }
}

/// The name of a list's fault.
fn list_name(fault: ListFault) -> &'static str
    ensures { result.now ≡ list_name fault }
{
    match fault {
        ListFault::BadList => "BadList",
        ListFault::File => "File",
        ListFault::Io => "Io",
        ListFault::Turns => "Turns",
        ListFault::Ad(inner) => ad_name(inner),
        ListFault::OutOfMemory => "OutOfMemory",
    }
}

/// The name of a fault of a list of services.
fn services_name(fault: ServicesFault) -> &'static str
    ensures { result.now ≡ services_name fault }
{
    match fault {
        ServicesFault::BadLine => "BadList",
        ServicesFault::Config(_) => "BadList",
        ServicesFault::File => "File",
        ServicesFault::Adverts(inner) => list_name(inner),
        ServicesFault::Services(_) => "BadList",
        ServicesFault::Io => "Io",
        ServicesFault::Turns => "Turns",
        ServicesFault::OutOfMemory => "OutOfMemory",
    }
}

/// The innermost name of a fault.
pub fn fault_name(fault: ProgramFault) -> &'static str
    ensures { result.now ≡ fault_name fault }
{
    match fault {
        ProgramFault::Lines(LinesFault::BadLine) => "BadLine",
        ProgramFault::Lines(LinesFault::Cut(inner)) => cut_name(inner),
        ProgramFault::Run(inner) => run_name(inner),
        ProgramFault::Script(inner) => script_name(inner),
        ProgramFault::List(inner) => list_name(inner),
        ProgramFault::Services(inner) => services_name(inner),
        ProgramFault::Accept => "Accept",
        ProgramFault::Print => "Io",
        ProgramFault::Log => "Io",
        ProgramFault::Unflushed => "Io",
        ProgramFault::File => "File",
        ProgramFault::OutOfMemory => "OutOfMemory",
    }
}

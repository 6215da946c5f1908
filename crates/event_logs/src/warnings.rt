//! What is to be said at the end of a good run.

ghost use Rattle.std.specs.Prelude.{◌≡◌};
ghost use Rattle.event_logs.specs.Warned.{heard, with_edge, with_missing, with_unlisted};

use crate::names::edge_name;
use automations::LateLines;
use chain_engine::SessionEnd;
use event_table::Event;
use run_events::{Cue, EdgeFault, EdgePlace, Misfit, Occurrence, What};
use std::io::Write;

/// How many edges are told with their place.
const SHOWN: usize = 3;

/// How many services there are at most.
const MOST: usize = 8;

/// An edge that is not clean, and where.
#[derive(Clone, Copy, Debug)]
struct UncleanEdge {
    service: Option<u16>,
    packet: u64,
    place: EdgePlace,
    fault: EdgeFault,
}

/// A break whose advertisement is not in the list.
#[derive(Clone, Copy, Debug)]
struct UnlistedBreak {
    event: u32,
    /// The number of the advertisement.
    program: u16,
}

/// What was amiss in a run that went through.
#[derive(Clone, Copy, Debug)]
pub struct Warnings {
    /// The first programs that were not found.
    not_found: [Option<u16>; MOST],
    /// How many of these are there.
    missing: usize,
    /// How many packets the network had.
    packets: u64,
    /// A session was closed by a size that no message has.
    is_closed: bool,
    /// How many breaks ask for an advertisement that is not listed.
    unlisted: u64,
    first_unlisted: Option<UnlistedBreak>,
    /// How many edges are not clean.
    edges: u64,
    /// The first of them.
    first_edges: [Option<UncleanEdge>; SHOWN],
    /// How many of these are there.
    shown: usize,
    late_lines: Option<LateLines>,
}

impl Warnings {
    /// Nothing is amiss.
    pub fn new() -> Warnings {
        Warnings {
            not_found: [None; MOST],
            missing: 0,
            packets: 0,
            is_closed: false,
            unlisted: 0,
            first_unlisted: None,
            edges: 0,
            first_edges: [None; SHOWN],
            shown: 0,
            late_lines: None,
        }
    }

    /// Takes note of what happened.
    pub(crate) fn hear(&mut self, occurrence: &Occurrence)
        ensures { self.new ≡ heard occurrence.now self.old }
    {
        let (service, packet) = (occurrence.service, occurrence.packet);
        match occurrence.what {
            What::Cue(Cue::Start(Some(Misfit::NoAdvert)), event) => self.add_unlisted(&event),
            What::Edge(place, fault) => self.add_edge(UncleanEdge {
                service,
                packet,
                place,
                fault,
            }),
            What::Session(SessionEnd::BadSize) => self.is_closed = true,
            What::NotFound(program) => self.add_missing(program),
            What::End => self.packets = packet,
            _ => {}
        }
    }

    /// Counts a break whose advertisement is not listed, and keeps the first.
    fn add_unlisted(&mut self, event: &Event)
        ensures { self.new ≡ with_unlisted event.now self.old }
    {
        if self.first_unlisted.is_none() {
            self.first_unlisted = Some(UnlistedBreak {
                event: event.id,
                program: event.program,
            });
        }
        self.unlisted = self.unlisted.saturating_add(1);
    }

    /// Counts an edge that is not clean, and keeps the first three.
    fn add_edge(&mut self, edge: UncleanEdge)
        ensures { self.new ≡ with_edge edge self.old }
    {
        if self.shown < SHOWN {
            self.first_edges[self.shown] = Some(edge);
            self.shown += 1;
        }
        self.edges = self.edges.saturating_add(1);
    }

    /// Keeps a program that was not found, where there is room; there are never more services.
    fn add_missing(&mut self, program: u16)
        ensures { self.new ≡ with_missing program self.old }
    {
        if self.missing < MOST {
            self.not_found[self.missing] = Some(program);
            self.missing += 1;
        }
    }

    /// How many packets the network had.
    pub fn packets(&self) -> u64
        ensures { result ≡ self.now.packets }
    {
        self.packets
    }

    /// These lines of the script lie past the network's end.
    pub fn late(&mut self, lines: Option<LateLines>)
        ensures { self.new ≡ record self.old { late_lines = lines } }
    {
        self.late_lines = lines;
    }

    /// Prints a line for each of these. Where one cannot be printed nothing is done.
    pub fn print<E: Write>(&self, stream: &mut E) {
        self.print_programs(stream);
        if self.is_closed {
            let _ = writeln!(
                stream,
                "warning: a session of the automation was closed by a size that no message has"
            );
        }
        if let Some(late) = self.late_lines {
            let (lines, packet) = (late.count, late.first);
            let _ = writeln!(
                stream,
                "warning: lines of the script past the end of the network: {lines}, the first before packet {packet}"
            );
        }
        self.print_unlisted(stream);
        self.print_edges(stream);
    }

    /// Prints which programs were not found, in a network that has packets.
    fn print_programs<E: Write>(&self, stream: &mut E) {
        let packets = self.packets;
        if packets == 0 {
            return;
        }
        for program in &self.not_found {
            if let Some(program) = program {
                let _ = writeln!(
                    stream,
                    "warning: program {program} was not found in {packets} packets"
                );
            }
        }
    }

    /// Prints how many breaks ask for what is not listed.
    fn print_unlisted<E: Write>(&self, stream: &mut E) {
        let count = self.unlisted;
        if let Some(first) = self.first_unlisted {
            let (event, program) = (first.event, first.program);
            let _ = writeln!(
                stream,
                "warning: breaks whose advertisement is not in the list: {count}, the first event {event} with {program}"
            );
        }
    }

    /// Prints the first edges that are not clean, and how many more there are.
    fn print_edges<E: Write>(&self, stream: &mut E) {
        for edge in &self.first_edges {
            if let Some(edge) = edge {
                print_edge(stream, edge);
            }
        }
        let more = self.edges.saturating_sub(SHOWN as u64);
        if more > 0 {
            let _ = writeln!(stream, "warning: edges that are not clean: {more} more");
        }
    }
}

/// Prints an edge that is not clean.
fn print_edge<E: Write>(stream: &mut E, edge: &UncleanEdge) {
    let place = edge.place;
    let name = edge_name(place.edge);
    let (event, packet) = (place.event, edge.packet);
    let pid = place.pid.get();
    if let Some(service) = edge.service {
        let _ = write!(stream, "warning: service {service}: ");
    } else {
        let _ = write!(stream, "warning: ");
    }
    let _ = write!(
        stream,
        "the {name} of event {event} is not clean on PID {pid} (0x{pid:04X}), packet {packet}: "
    );
    match edge.fault {
        EdgeFault::SteppedBack(ticks) => {
            let _ = writeln!(stream, "the time stamps step back over it by {ticks} ticks");
        }
        EdgeFault::NoRandomAccess => {
            let _ = writeln!(stream, "no random access point");
        }
        EdgeFault::NoEntryPicture => {
            let _ = writeln!(stream, "its picture goes on from those before it");
        }
    }
}

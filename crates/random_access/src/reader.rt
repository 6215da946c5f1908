//! The random access points of one PID, found packet by packet.

ghost use Rattle.std.specs.Prelude.{◌≡◌, ◌∷◌, [], List, ℕ, length, reverse, OnOk, IfOk};
ghost use Rattle.pes_time.specs.Stamps.{stamp_of};
ghost use Rattle.random_access.specs.Points.{ReadsPoints, OfPoints, Keeps, begins_of, points};

use crate::begins::{Point, UnitBegin, UnitBegins};
use crate::coding::VideoCoding;
use crate::marks::Marks;
use pes_time::{PesHead, Time33};
use std::alloc::{AllocError, Global};
use ts_packet::{Packet, Pid};
use unit_stream::StartReader;

/// Finds the units of one PID and their marks, one packet at a time.
#[derive(Debug, Drop)]
pub struct PointReader {
    starts: StartReader,
    kept: UnitBegins,
}

impl PointReader {
    /// A reader of this PID that has seen no packet. It takes no memory.
    pub fn new(alloc: Global, pid: Pid) -> PointReader
        ensures { ReadsPoints result pid [] }
    {
        PointReader {
            starts: StartReader::new(pid),
            kept: UnitBegins::new(alloc),
        }
    }

    /// Takes the next packet, of whatever PID, before which so many stand.
    ///
    /// # Errors
    ///
    /// Where the allocator refused memory. What the reader has found then is open.
    pub fn feed(&mut self, packet: &Packet, before: u64) -> Result<(), AllocError>
        ensures { OfPoints self.old (λ pid past. before ≡ length past
            → OnOk result (ReadsPoints self.new pid (packet.now ∷ past))) }
    {
        let Some(payload) = self.starts.feed(packet) else {
            return Ok(());
        };
        let begin = UnitBegin {
            packet: before,
            pts: stamp(payload),
            marks: Marks::of(packet),
        };
        self.kept.add(begin)
    }

    /// The units that have begun.
    pub fn begins(&self) -> &UnitBegins
        ensures { (pid : ℕ) (ps : List (List ℕ)) → ReadsPoints self.now pid (reverse ps)
            → Keeps result.now (begins_of pid ps) }
    {
        &self.kept
    }
}

/// The presentation time stamp at the front of a unit.
fn stamp(payload: &[u8]) -> Option<Time33>
    ensures { result ≡ stamp_of payload.now }
{
    match PesHead::read(payload) {
        Ok(head) => head.pts(),
        Err(_) => None,
    }
}

/// The random access points of a PID in a run of packets, where its stream has this coding.
///
/// # Errors
///
/// Where the allocator refused memory.
pub fn points_of(
    alloc: Global,
    coding: Option<VideoCoding>,
    pid: Pid,
    packets: &[Packet],
) -> Result<Vec<Point>, AllocError>
    ensures { IfOk result (λ v. v.items ≡ points coding pid packets.now) }
{
    let mut reader = PointReader::new(alloc, pid);
    for (before, packet) in packets.iter().enumerate() {
        reader.feed(packet, before as u64)?;
    }
    reader.begins().points(alloc, coding)
}

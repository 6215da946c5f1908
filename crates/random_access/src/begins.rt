//! The begins of the units of one stream, and the random access points among them.

ghost use Rattle.std.specs.Prelude.{◌≡◌, ◌∷◌, ◌++◌, [], ◌+◌, ◌-◌, ◌^◌, length, min, OnOk, IfOk};
ghost use Rattle.std.specs.List.{filter_map};
ghost use Rattle.random_access.specs.Points.{Keeps, OfKept, first_stamp, last_stamp, or_else, point_of};

use crate::coding::VideoCoding;
use crate::marks::{Mark, Marks};
use pes_time::Time33;
use std::alloc::{AllocError, Global};

/// The begin of a unit.
#[derive(Clone, Copy, Debug, PartialEq, Eq)]
pub struct UnitBegin {
    /// How many packets stand before its first one.
    pub packet: u64,
    /// Its presentation time stamp.
    pub pts: Option<Time33>,
    /// What its first packet says of random access.
    pub marks: Marks,
}

/// A random access point.
#[derive(Clone, Copy, Debug, PartialEq, Eq)]
pub struct Point {
    /// How many packets stand before the unit's first one.
    pub packet: u64,
    /// The unit's presentation time stamp.
    pub pts: Option<Time33>,
    /// Why it is one.
    pub by: Mark,
}

impl UnitBegin {
    /// The point that it is, in a stream of this coding.
    pub fn point(&self, coding: Option<VideoCoding>) -> Option<Point>
        ensures { result ≡ point_of coding self.now }
    {
        match self.marks.mark_for(coding) {
            None => None,
            Some(by) => Some(Point {
                packet: self.packet,
                pts: self.pts,
                by,
            }),
        }
    }
}

/// What is kept of the begins of the units of a stream: those with a mark, how many there were, and their first and last time stamp.
#[derive(Debug, Drop)]
pub struct UnitBegins {
    marked: Vec<UnitBegin>,
    units: u64,
    first: Option<Time33>,
    last: Option<Time33>,
}

impl UnitBegins {
    /// None yet. It takes no memory.
    pub fn new(alloc: Global) -> UnitBegins
        ensures { Keeps result [] }
    {
        UnitBegins {
            marked: Vec::new(alloc),
            units: 0,
            first: None,
            last: None,
        }
    }

    /// One more.
    ///
    /// # Errors
    ///
    /// Where the allocator refused memory. What is kept then is open.
    pub(crate) fn add(&mut self, begin: UnitBegin) -> Result<(), AllocError>
        ensures { OfKept self.old (λ bs. OnOk result (Keeps self.new (bs ++ begin ∷ []))) }
    {
        self.units = one_more(self.units);
        self.first = or_else(self.first, begin.pts);
        self.last = or_else(begin.pts, self.last);
        if begin.marks.any() {
            self.marked.push(begin)?;
        }
        Ok(())
    }

    /// How many there are; it stops at the greatest number.
    pub fn units(&self) -> u64
        ensures { OfKept self.now (λ bs. result ≡ min (length bs) (2 ^ 64 - 1)) }
    {
        self.units
    }

    /// The first time stamp, in the order of the stream.
    pub fn first_pts(&self) -> Option<Time33>
        ensures { OfKept self.now (λ bs. result ≡ first_stamp bs) }
    {
        self.first
    }

    /// The last time stamp, in the order of the stream.
    pub fn last_pts(&self) -> Option<Time33>
        ensures { OfKept self.now (λ bs. result ≡ last_stamp bs) }
    {
        self.last
    }

    /// The random access points among them, in a stream of this coding.
    ///
    /// # Errors
    ///
    /// Where the allocator refused memory.
    pub fn points(
        &self,
        alloc: Global,
        coding: Option<VideoCoding>,
    ) -> Result<Vec<Point>, AllocError>
        ensures { OfKept self.now (λ bs. IfOk result (λ v. v.items ≡ filter_map (point_of coding) bs)) }
    {
        self.marked_points(alloc, coding)
    }

    /// The points among those with a mark.
    fn marked_points(
        &self,
        alloc: Global,
        coding: Option<VideoCoding>,
    ) -> Result<Vec<Point>, AllocError>
        ensures { IfOk result (λ v. v.items ≡ filter_map (point_of coding) self.now.marked.items) }
    {
        let mut points = Vec::new(alloc);
        for begin in &self.marked {
            if let Some(point) = begin.point(coding) {
                points.push(point)?;
            }
        }
        Ok(points)
    }
}

/// A count with one more, up to the greatest number.
fn one_more(count: u64) -> u64
    ensures { result ≡ min (count + 1) (2 ^ 64 - 1) }
{
    if count == u64::MAX { count } else { count + 1 }
}

/// One stamp, or else the other.
fn or_else(stamp: Option<Time33>, other: Option<Time33>) -> Option<Time33>
    ensures { result ≡ or_else stamp other }
{
    match stamp {
        Some(stamp) => Some(stamp),
        None => other,
    }
}

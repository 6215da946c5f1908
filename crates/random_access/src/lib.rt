//! Random access points: the units of a stream from which a decoder can begin, by the marks in their first packets; and whether such a packet
//! shows that a picture's numbers go on from those before it. It stands on `unit_stream` and `pes_time`.
//! The crates above use one contract of it: what is found in a run of packets are exactly the units with marks, each with its own
//! packet and its own time stamp.
#![tactic(auto)]

mod begins;
mod coding;
mod marks;
mod numbering;
mod reader;

pub use begins::{Point, UnitBegin, UnitBegins};
pub use coding::VideoCoding;
pub use marks::{Mark, Marks};
pub use numbering::{continues, packet_continues};
pub use reader::{PointReader, points_of};

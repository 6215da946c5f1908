//! Distances between times.

use pes_time::Time33;
use random_access::Point;
use stream_facts::ProgramFacts;

/// The greatest distance between two random access points that follow one another, in ticks of 90 kHz.
pub fn greatest_distance(points: &Vec<Point>) -> Option<u64> {
    let mut last: Option<Time33> = None;
    let mut greatest: Option<u64> = None;
    for point in points {
        let Some(pts) = point.pts else {
            continue;
        };
        if let Some(before) = last {
            let way = pts.signed_from(before).unsigned_abs();
            greatest = Some(match greatest {
                Some(most) if most >= way => most,
                _ => way,
            });
        }
        last = Some(pts);
    }
    greatest
}

/// The earliest of the first time stamps of a program's switched streams.
pub fn first_time(program: &ProgramFacts) -> Option<Time33> {
    let mut first: Option<Time33> = None;
    for stream in &program.streams {
        if let Some(pts) = stream.first_pts
            && stream.switched
        {
            first = match first {
                Some(earliest) if pts.signed_from(earliest) >= 0 => Some(earliest),
                _ => Some(pts),
            };
        }
    }
    first
}

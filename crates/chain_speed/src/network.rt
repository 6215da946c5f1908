//! A network that is made as it is read: a group of packets, repeated.

ghost use Rattle.std.specs.Prelude.{◌≡◌, ◌+◌, nat_lt, cond, true};

use crate::fields::CLOCK;
use crate::group::Group;
use std::io::{self, Read};

/// Gives a group of packets so often, with times that go on.
#[derive(Drop)]
pub struct Network {
    group: Group,
    /// The time at which the next repetition starts.
    start: u64,
    /// The number of the next repetition.
    number: u64,
    /// How many repetitions there are.
    size: u64,
    /// How many bytes of the present one were read.
    at: usize,
    /// How many bytes are given at a time at most.
    most: usize,
}

impl Network {
    /// So many repetitions, the first at this time, given in pieces of at most so many bytes.
    pub fn new(group: Group, start: u64, size: u64, most: usize) -> Network {
        let at = group.bytes.len();
        Network {
            group,
            start,
            number: 0,
            size,
            at,
            most,
        }
    }

    /// Begins the next repetition, and answers whether there is one.
    fn begin_next(&mut self) -> bool
        ensures more { result ≡ nat_lt self.old.number self.old.size }
        ensures counted { self.new.number ≡ self.old.number + cond (nat_lt self.old.number self.old.size) 1 0 }
        ensures begun { result ≡ true → self.new.at ≡ 0 }
    {
        if self.number >= self.size {
            return false;
        }
        if self.number > 0 {
            self.group.count_on();
        }
        self.group.set_times(self.start, self.number);
        self.start = self.start.wrapping_add(self.group.ticks) & CLOCK;
        self.number = self.number.saturating_add(1);
        self.at = 0;
        true
    }
}

impl Read for Network {
    fn read(&mut self, buf: &mut [u8]) -> io::Result<usize> {
        let room = buf.len().min(self.most);
        let mut filled = 0_usize;
        for _turn in 0..room {
            if filled >= room {
                break;
            }
            if self.at >= self.group.bytes.len() && !self.begin_next() {
                break;
            }
            let Some(rest) = self.group.bytes.as_slice().get(self.at..) else {
                break;
            };
            let count = rest.len().min(room - filled);
            buf[filled..filled + count].copy_from_slice(&rest[..count]);
            filled += count;
            self.at = self.at.saturating_add(count);
        }
        Ok(filled.min(buf.len()))
    }
}

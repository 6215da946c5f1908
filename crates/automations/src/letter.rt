//! A message on its way from a client: its bytes gather until it is whole, and then it is given on, piece by piece.

ghost use Rattle.std.specs.Prelude.{◌≡◌, false};

use crate::calls::{Requests, is_nothing};
use arrayvec::ArrayVec;
use scte104_codec::{Frame, frame};
use std::io::Read;

/// The size of the longest message in bytes: its field has two bytes.
const LONGEST: usize = 65_535;

/// The most reads of one take: a client that sends byte by byte keeps no packet back for longer.
const READS: u32 = 64;

/// How far a message has come.
#[derive(Clone, Copy, Debug, PartialEq, Eq)]
pub(crate) enum Progress {
    /// It is whole.
    Whole,
    /// More of it may be there.
    Some,
    /// Nothing more of it is there now.
    Nothing,
    /// It states a size that no message has.
    BadSize,
    /// It never becomes whole: its client has ended or failed.
    Over,
}

/// The bytes of the next message of a client, as far as they came; and of a whole one how many were given on.
#[derive(Drop)]
pub(crate) struct Letter {
    bytes: ArrayVec<u8, LONGEST>,
    is_whole: bool,
    given: usize,
    ghost partial: { is_whole ≡ false → given ≡ 0 },
}

impl Letter {
    ghost use Rattle.std.specs.Prelude.{◌≡◌, [], ◌++◌, length, take, min, false, true};
    ghost use Rattle.automations.specs.Clients.{held, unsent, ReadsOn, Gathers};

    /// Nothing has come.
    pub(crate) fn new() -> Letter
        ensures held { held result ≡ [] }
        ensures partial { result.is_whole ≡ false }
    {
        Letter {
            bytes: ArrayVec::new(),
            is_whole: false,
            given: 0,
        }
    }

    /// The message is whole, and not all of it is given on.
    pub(crate) fn is_whole(&self) -> bool
        ensures { result ≡ self.now.is_whole }
    {
        self.is_whole
    }

    /// Lets go of what has come.
    pub(crate) fn clear(&mut self)
        ensures held { held self.new ≡ [] }
        ensures partial { self.new.is_whole ≡ false }
    {
        self.bytes.clear();
        self.is_whole = false;
        self.given = 0;
    }

    /// Reads on, by one read into the front of the room, and no byte behind the message.
    fn read_on<R: Read>(&mut self, requests: &mut Requests<R>, room: &mut [u8]) -> Progress
        requires { self.old.is_whole ≡ false }
        ensures reads { ReadsOn result (R.remaining requests.old.reader) (R.remaining requests.new.reader) self.old self.new }
        ensures room { length room.new ≡ length room.old }
    {
        let missing = match frame(self.bytes.as_slice()) {
            Frame::NeedMore(missing) => missing,
            Frame::Whole(size) if size == self.bytes.len() => {
                self.is_whole = true;
                return Progress::Whole;
            }
            Frame::BadSize => return Progress::BadSize,
            Frame::Whole(_) => return Progress::Over,
        };
        let (front, _) = room.split_at_mut(missing.min(room.len()));
        match requests.read(front) {
            Ok(0) => Progress::Over,
            Ok(count) => match self.bytes.try_extend_from_slice(&front[..count]) {
                Ok(()) => Progress::Some,
                Err(_) => Progress::Over,
            },
            Err(error) if is_nothing(error.kind()) => Progress::Nothing,
            Err(_) => Progress::Over,
        }
    }

    /// Reads on, by 64 reads at most, until the message is whole or nothing more is there.
    pub(crate) fn gather<R: Read>(
        &mut self,
        requests: &mut Requests<R>,
        room: &mut [u8],
    ) -> Progress
        requires { self.old.is_whole ≡ false }
        ensures gathers { Gathers result (R.remaining requests.old.reader) (R.remaining requests.new.reader) self.old self.new }
        ensures room { length room.new ≡ length room.old }
    {
        for _ in 0..READS {
            match self.read_on(requests, room) {
                Progress::Some => {}
                progress => return progress,
            }
        }
        Progress::Some
    }

    /// Gives the next bytes of the whole message into the front of the room, as many as fit, and answers how many.
    pub(crate) fn give(&mut self, room: &mut [u8]) -> usize
        requires { self.old.is_whole ≡ true }
        ensures count { result ≡ min (length (unsent self.old)) (length room.old) }
        ensures gives { unsent self.old ≡ take result room.new ++ unsent self.new }
        ensures held { held self.new ≡ unsent self.new }
        ensures room { length room.new ≡ length room.old }
    {
        let (_, rest) = self.bytes.split_at(self.given.min(self.bytes.len()));
        let count = rest.len().min(room.len());
        let (piece, _) = rest.split_at(count);
        let (front, _) = room.split_at_mut(count);
        front.copy_from_slice(piece);
        self.given += count;
        if self.given >= self.bytes.len() {
            self.clear();
        }
        count
    }
}

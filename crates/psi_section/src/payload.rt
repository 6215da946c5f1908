//! Payloads on their way into the store.

ghost use Rattle.std.specs.Prelude.{◌≡◌, ◌≤◌, ◌++◌, ℕ, List, length, true, false};
ghost use Rattle.psi_section.specs.Sections.{front_of, taken, continued, started, payload_taken, after};
ghost use Rattle.psi_section.specs.Storing.{content};

use crate::front::{Front, front_of};
use crate::store::Store;

impl Store {
    /// Takes a payload of a packet with payload_unit_start_indicator or without, behind the part of a section.
    pub(crate) fn take_payload(&mut self, is_start: bool, payload: &[u8])
        requires room { length (content self.old) ≤ 4096 }
        requires size { length payload.now ≤ 184 }
        ensures { taken (content self.new) ≡ payload_taken is_start (content self.old) payload.now }
    {
        if is_start {
            self.start(payload);
        } else {
            self.go_on(payload);
        }
    }

    /// Takes a payload in which a section may begin.
    fn start(&mut self, payload: &[u8])
        requires room { length (content self.old) ≤ 4096 }
        requires size { length payload.now ≤ 184 }
        ensures { taken (content self.new) ≡ started (content self.old) payload.now }
    {
        match payload {
            [pointer, bytes @ ..] if *pointer as usize <= bytes.len() => {
                self.finish(&bytes[..*pointer as usize]);
                self.append(&bytes[*pointer as usize..]);
            }
            _ => self.clear(),
        }
    }

    /// Takes a payload that goes on with the part, if there is one.
    fn go_on(&mut self, payload: &[u8])
        requires room { length (content self.old) ≤ 4096 }
        requires size { length payload.now ≤ 184 }
        ensures { taken (content self.new) ≡ continued (content self.old) payload.now }
    {
        if self.len() == 0 {
            return;
        }
        match self.join(payload) {
            Front::Nothing => self.clear(),
            Front::Whole(size) => self.truncate(size),
            Front::Part => {}
        }
    }

    /// Takes the bytes that end the part, if there is one, and discards a section that they do not end.
    fn finish(&mut self, bytes: &[u8])
        requires room { length (content self.old) ≤ 4096 }
        requires size { length bytes.now ≤ 184 }
        ensures taken { (more : List ℕ) →
            taken (content self.new ++ more) ≡ after (continued (content self.old) bytes.now).finished (taken more) }
        ensures room { length (content self.new) ≤ 4096 }
    {
        if self.len() == 0 {
            return;
        }
        match self.join(bytes) {
            Front::Whole(size) => self.truncate(size),
            _ => self.clear(),
        }
    }

    /// Appends the bytes, and answers how all begin.
    fn join(&mut self, bytes: &[u8]) -> Front
        requires room { length (content self.old) ≤ 4096 }
        requires size { length bytes.now ≤ 184 }
        ensures joined { content self.new ≡ content self.old ++ bytes.now }
        ensures front { result ≡ front_of (content self.old ++ bytes.now) }
    {
        self.append(bytes);
        front_of(self.content())
    }
}

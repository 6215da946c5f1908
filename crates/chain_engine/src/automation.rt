//! Automation: what asks for breaks, in pieces of bytes, and is answered.

/// What one take of automation bytes gave.
#[derive(Clone, Copy, Debug, PartialEq, Eq)]
pub enum Taken {
    /// So many bytes, at the front of the room. None is an empty piece.
    Bytes(usize),
    /// There is nothing now: an empty piece.
    Nothing,
    /// The automation has ended, and gives no more.
    Ended,
    /// The automation failed.
    Failed,
}

/// What asks for breaks: an automation system on a connection, or a script. It is asked for a piece of bytes before each packet of the
/// network, and takes the replies to the messages in them.
pub trait Automation {
    ghost use Rattle.std.specs.Prelude.{◌≡◌, ℕ, List, [], ◌∷◌, ◌++◌, length};
    ghost use Rattle.chain_engine.specs.Automation.{Exchange, taken, answered, take_of, answer_of, IsRoomFor, CountsTake, CountsAnswer};

    /// What its takes gave between a state and a later one, and the answers that it was given, in their order.
    ghost exchanges: { Self → List Exchange → Self → Type 0 };

    /// How many takes and answers failed. The count stops at the greatest u64.
    ghost failures: { Self → ℕ };

    /// Takes the next piece into the front of the room, which has 4,096 bytes, without waiting for it.
    fn take(&mut self, room: &mut [u8]) -> Taken
        requires room { length room.old ≡ 4096 }
        ensures bound { IsRoomFor (length room.new) result }
        ensures exchanges { exchanges self.old (taken (take_of result room.new) ∷ []) self.new }
        ensures failures { CountsTake result (failures self.old) (failures self.new) };

    /// Gives a reply, a whole message, and answers whether the automation has it.
    fn answer(&mut self, reply: &[u8]) -> bool
        ensures exchanges { exchanges self.old (answered (answer_of reply.now result) ∷ []) self.new }
        ensures failures { CountsAnswer result (failures self.old) (failures self.new) };

    ghost exchanges_refl: { (s : Self) → exchanges s [] s };

    ghost exchanges_trans: { (s t u : Self) (xs ys : List Exchange) → exchanges s xs t → exchanges t ys u
        → exchanges s (xs ++ ys) u };
}

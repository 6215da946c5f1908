//! Who is told of a run.

ghost use Rattle.std.specs.Prelude.{[], ◌∷◌};
ghost use Rattle.run_events.specs.Telling.{at, Tells, tells_played, tells_not_fitted, tells_unconditioned};

use crate::occurrence::{Occurrence, What};

/// Who is told of a run while it goes on.
pub trait Watch {
    ghost use Rattle.std.specs.Prelude.{List, [], ◌∷◌, ◌++◌};
    ghost use Rattle.run_events.specs.declared.occurrence.Occurrence.{Occurrence};

    /// What it was told between a state and a later one, in its order.
    ghost hears: { Self → List Occurrence → Self → Type 0 };

    /// Anything is to be told.
    fn is_on(&self) -> bool;

    /// Each request and each cue is to be told, at its packet.
    fn is_detailed(&self) -> bool;

    /// A request was told since this was asked last.
    fn takes_news(&mut self) -> bool
        ensures { hears self.old [] self.new };

    /// This happened.
    fn tell(&mut self, occurrence: &Occurrence)
        ensures { hears self.old (occurrence.now ∷ []) self.new };

    ghost hears_refl: { (s : Self) → hears s [] s };

    ghost hears_trans: { (s t u : Self) (xs ys : List Occurrence) → hears s xs t → hears t ys u → hears s (xs ++ ys) u };
}

/// Nobody is told.
#[derive(Clone, Copy, Debug, Drop)]
pub struct Unheard;

impl Watch for Unheard {
    ghost hears = { λ s lines t. Unit {0} };

    ghost hears_refl = { λ s. tt };

    ghost hears_trans = { λ s t u xs ys h k. tt };

    #[inline(always)]
    fn is_on(&self) -> bool {
        false
    }

    #[inline(always)]
    fn is_detailed(&self) -> bool {
        false
    }

    #[inline(always)]
    fn takes_news(&mut self) -> bool {
        false
    }

    #[inline(always)]
    fn tell(&mut self, _occurrence: &Occurrence) {}
}

/// Where something happens.
#[derive(Clone, Copy, Debug)]
pub(crate) struct Site {
    /// The program of the service, where there are several.
    pub(crate) service: Option<u16>,
    /// The number of the packet.
    pub(crate) packet: u64,
}

impl Site {
    /// This happened here.
    pub(crate) fn tell<W: Watch>(self, watch: &mut W, what: What)
        ensures heard { W.hears watch.old (at self what ∷ []) watch.new }
        ensures told { Tells W.hears self watch.old
            (tells_played what) (tells_not_fitted what) (tells_unconditioned what) watch.new }
    {
        watch.tell(&Occurrence {
            service: self.service,
            packet: self.packet,
            what,
        });
    }
}

//! What holds of slices, over the definitions alone, and of every library.

ghost use Rattle.ad_library.specs.Laws.{ShorterIsFilter, ShorterIsFront};
ghost use Rattle.ad_library.specs.Library.{held, IsLibrary};

use crate::library::AdLibrary;
use std::alloc::Allocator;

/// The slice for a shorter length is what the slice for a longer one has below it, in the same order, whatever the order of the times.
pub fn shorter_is_filter()
    ensures { ShorterIsFilter }
{}

/// Where the offsets rise it is a front of that one.
pub fn shorter_is_front()
    ensures { ShorterIsFront }
{}

/// Each unit of each advertisement in a library has a byte, whatever was filed.
#[tactic(auto, using(crate::proofs::HeldLemmas::held_is_library))]
pub fn held_is_library<A: Allocator>(library: &AdLibrary<A>)
    ensures { IsLibrary (held library.now) }
{}

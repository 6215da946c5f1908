//! A law of several services, on a function of its own.

ghost use Rattle.chain_services.specs.Laws.{EachSoundIsEnough};

/// Services of which each alone finds no fault in a network, and of which no two share a PID behind all of it, find none together.
pub fn each_sound_is_enough()
    ensures { EachSoundIsEnough }
{}

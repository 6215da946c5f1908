//! Sources whose reads may wait for their device.

use crate::device::Source;
use crate::source::PacketSource;

/// A source of bytes that tells whether a read may wait.
pub trait PausingSource: Source {
    ghost use Rattle.std.specs.Prelude.{◌≡◌, ℕ, ◌∷◌, [], Bool, Option, IfSome, take};

    /// Reading so many bytes may wait.
    ghost may_wait: { Self → ℕ → Bool };

    /// The next byte, where it lies ready.
    ghost first_ready: { Self → Option ℕ };

    /// Whether reading so many bytes may wait for the device: fewer lie ready, and the device may pause.
    fn may_wait(&self, count: usize) -> bool
        ensures { result ≡ may_wait self.now count };

    /// The next byte, where it lies ready. It is not read.
    fn first_ready(&self) -> Option<u8>
        ensures value { result ≡ first_ready self.now }
        ensures next { IfSome result (λ b. IfSome (Self.remaining self.now) (λ bs. take 1 bs ≡ b ∷ [])) };
}

/// A source of packets that tells whether the read of the next one may wait.
pub trait PausingPackets: PacketSource {
    ghost use Rattle.std.specs.Prelude.{◌≡◌, Bool};

    /// The read of the next packet may wait.
    ghost next_may_wait: { Self → Bool };

    /// Whether the read of the next packet may wait for the device.
    fn next_may_wait(&self) -> bool
        ensures { result ≡ next_may_wait self.now };
}

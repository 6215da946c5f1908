//! The sessions of an automation that has several, one after another.

/// An automation that ends sessions of its own: the chain, which hears whole messages alone, is not told of their ends.
pub trait Sessions {
    ghost use Rattle.std.specs.Prelude.{◌≡◌, ℕ};

    /// How many of its sessions it has ended for a size that no message has.
    ghost closed_so_far: { Self → ℕ };

    /// How many of its sessions it has ended for a size that no message has; none where the chain hears all of its bytes.
    fn closed(&self) -> u64
        ensures { result ≡ closed_so_far self.now };
}

//! What a run tells.

ghost use Rattle.std.specs.Prelude.{◌≡◌, ◌↔◌, ◌⊎◌, length, true};

/// A run told this; where it is empty, whatever it told.
pub fn is_told(faults: &[u8], told: &str) -> bool
    ensures { result ≡ true ↔ (length told.now ≡ 0) ⊎ (faults.now ≡ told.now) }
{
    told.is_empty() || faults == told.as_bytes()
}

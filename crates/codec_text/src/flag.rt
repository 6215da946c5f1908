//! Flags as text.

use std::fmt;

/// A flag as 1 or 0.
#[derive(Clone, Copy)]
pub struct FlagText(pub bool);

impl fmt::Display for FlagText {
    ghost use Rattle.std.specs.Prelude.{Some};
    ghost use Rattle.codec_text.specs.Texts.{flag_text};

    ghost output = { λ t. Some (flag_text t.0) };

    fn fmt<W: fmt::Write>(&self, f: &mut fmt::Formatter<W>) -> fmt::Result {
        match self.0 {
            true => f.write_str("1"),
            false => f.write_str("0"),
        }
    }
}

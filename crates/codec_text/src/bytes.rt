//! Bytes as text.

use hex_digits::Digits;
use std::fmt;

/// Bytes as upper case hexadecimal digits, two for each; `-` where there are none.
#[derive(Clone, Copy)]
pub struct BytesText<'a>(pub &'a [u8]);

impl fmt::Display for BytesText<'_> {
    ghost use Rattle.std.specs.Prelude.{Some};
    ghost use Rattle.codec_text.specs.Texts.{bytes_text};

    ghost output = { λ t. Some (bytes_text t.0.now) };

    fn fmt<W: fmt::Write>(&self, f: &mut fmt::Formatter<W>) -> fmt::Result {
        if self.0.is_empty() {
            return f.write_str("-");
        }
        let digits = Digits(self.0);
        write!(f, "{digits}")
    }
}

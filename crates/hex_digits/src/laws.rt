//! Laws over the definitions of digits, each a function that does nothing and whose contract is the law.

ghost use Rattle.hex_digits.specs.Laws.{DigitsAreReadBack, SpelledByTheDigits};

/// The digits of bytes spell these bytes.
pub fn digits_are_read_back()
    ensures { DigitsAreReadBack }
{}

/// A text that spells bytes is the digits of these bytes: there is no other spelling, and each is a byte.
pub fn spelled_by_the_digits()
    ensures { SpelledByTheDigits }
{}

//! Decimal numbers of the command line.

ghost use Rattle.std.specs.Prelude.{◌≡◌};
ghost use Rattle.std.specs.List.{list_all};
ghost use Rattle.std.specs.Char.{is_ascii_digit};
ghost use Rattle.decimal_numbers.specs.Numbers.{is_number, number_below, number_within};

/// Whether each byte of the text is a decimal digit.
fn are_digits(text: &str) -> bool
    ensures { result ≡ list_all is_ascii_digit text.now }
{
    text.bytes().all(|byte| byte.is_ascii_digit())
}

/// Whether the text is decimal digits alone, at least one.
fn is_number(text: &str) -> bool
    ensures { result ≡ is_number text.now }
{
    !text.is_empty() && are_digits(text)
}

/// The number that the text writes in decimal digits alone, without a sign, where it is below `limit`; leading zeros are taken.
pub fn number_below(text: &str, limit: u64) -> Option<u64>
    ensures { result ≡ number_below text.now limit }
{
    if !is_number(text) {
        return None;
    }
    match text.parse::<u64>() {
        Ok(number) => { if number < limit { Some(number) } else { None } }
        Err(_) => None,
    }
}

/// Likewise, where it is at least `least`.
pub fn number_within(text: &str, least: u64, limit: u64) -> Option<u64>
    ensures { result ≡ number_within text.now least limit }
{
    match number_below(text, limit) {
        Some(number) => { if number < least { None } else { Some(number) } }
        None => None,
    }
}

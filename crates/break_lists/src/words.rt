//! The words of a line.

ghost use Rattle.std.specs.Prelude.{◌≡◌, ◌==◌, ◌<◌, ◌≤◌, length, IfSome};
ghost use Rattle.std.specs.Char.{is_ascii_whitespace};
ghost use Rattle.std.specs.List.{position_or_len, before_first, after_first};
ghost use Rattle.break_lists.specs.Words.{IsCutBehind, behind_blanks, first_word, after_word, same_word, whole_number};

use decimal_numbers::number_below;

/// What is left of a text behind the white space at its front.
#[tactic(auto, unfolding(crate::specs::Words::behind_blanks))]
fn behind_blanks(text: &[u8]) -> &[u8]
    ensures { result.now ≡ behind_blanks text.now }
{
    let mut rest = text;
    while let Some((first, behind)) = rest.split_first() {
        if !first.is_ascii_whitespace() {
            return rest;
        }
        rest = behind;
    }
    rest
}

/// How many bytes stand before the first white space, or all where there is none.
fn word_len(text: &[u8]) -> usize
    ensures value { result ≡ position_or_len is_ascii_whitespace text.now }
    ensures within { result ≤ length text.now }
{
    let mut rest = text;
    let mut count = 0;
    while let Some((first, behind)) = rest.split_first() {
        if first.is_ascii_whitespace() {
            return count;
        }
        count += 1;
        rest = behind;
    }
    count
}

/// The first word of a text, empty where there is none, and what stands behind it.
pub(crate) fn cut_word(text: &[u8]) -> (&[u8], &[u8])
    ensures word { result.0.now ≡ first_word text.now }
    ensures rest { result.1.now ≡ after_word text.now }
{
    let text = behind_blanks(text);
    text.split_at(word_len(text))
}

/// How many bytes stand before the first of these, or all where there is none.
fn place_of(text: &[u8], at: u8) -> usize
    ensures value { result ≡ position_or_len (λ x. x == at) text.now }
    ensures within { result ≤ length text.now }
{
    let mut rest = text;
    let mut count = 0;
    while let Some((first, behind)) = rest.split_first() {
        if *first == at {
            return count;
        }
        count += 1;
        rest = behind;
    }
    count
}

/// What stands before the first of these bytes, and what behind it where there is one.
pub(crate) fn cut_at(text: &[u8], at: u8) -> (&[u8], Option<&[u8]>)
    ensures before { result.0.now ≡ before_first (λ x. x == at) text.now }
    ensures behind { IsCutBehind (λ x. x == at) text.now result.1 }
{
    let (before, rest) = text.split_at(place_of(text, at));
    match rest.split_first() {
        Some((_, behind)) => (before, Some(behind)),
        None => (before, None),
    }
}

/// What stands behind the first of these bytes, nothing where there is none.
pub(crate) fn behind(text: &[u8], at: u8) -> &[u8]
    ensures { result.now ≡ after_first (λ x. x == at) text.now }
{
    match cut_at(text, at) {
        (_, Some(rest)) => rest,
        (_, None) => &[],
    }
}

/// Whether two words differ in case at most.
#[tactic(auto, unfolding(crate::specs::Words::same_word))]
pub(crate) fn same_word(word: &[u8], other: &[u8]) -> bool
    ensures { result ≡ same_word word.now other.now }
{
    let mut left = word;
    let mut right = other;
    while let Some((first, behind)) = left.split_first() {
        let Some((second, after)) = right.split_first() else {
            return false;
        };
        if !first.eq_ignore_ascii_case(second) {
            return false;
        }
        left = behind;
        right = after;
    }
    right.is_empty()
}

/// The number that a word writes in decimal digits alone, where it is below the limit.
pub(crate) fn whole_number(word: &[u8], limit: u64) -> Option<u64>
    ensures value { result ≡ whole_number word.now limit }
    ensures below { IfSome result (λ n. n < limit) }
{
    match str::from_utf8(word) {
        Ok(text) => number_below(text, limit),
        Err(_) => None,
    }
}

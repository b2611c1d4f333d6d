// The numbers of a condition's text.
ghost use Rattle.std.specs.Prelude.{◌≡◌, ◌<◌, ◌≤◌, min, IfSome};
ghost use Rattle.ecam_spec.specs.TermNumber.{digits_value, is_negative, magnitude};
ghost use Rattle.term_text.specs.Numbers.{amount_within, compared_number, signed};

use ecam_spec::limits;

// The number of decimal digits, highest first, ending at `u64::MAX`.
fn digits_value(digits: &[u8]) -> u64
    ensures { result ≡ min (digits_value digits.now) u64.MAX }
{
    let mut value = 0u64;
    for digit in digits {
        value = value
            .saturating_mul(10)
            .saturating_add(u64::from(digit.saturating_sub(b'0')));
    }
    value
}

fn is_negative(text: &[u8]) -> bool
    ensures { result ≡ is_negative text.now }
{
    match text {
        [first, ..] => *first == b'-',
        [] => false,
    }
}

// How far a number is from 0, ending at `u64::MAX`.
#[tactic(auto, unfolding(ecam_spec::specs::TermNumber::magnitude))]
fn magnitude(text: &[u8]) -> u64
    ensures { result ≡ min (magnitude text.now) u64.MAX }
{
    if is_negative(text) {
        digits_value(&text[1..])
    } else {
        digits_value(text)
    }
}

// The greatest number that something is compared with.
const GREATEST: u64 = limits::NUMBER as u64;

/// A number that something is compared with, as far as the greatest from 0.
pub(crate) fn compared_number(text: &[u8]) -> Option<i64>
    ensures { result ≡ compared_number text.now }
{
    let magnitude = magnitude(text);
    if magnitude > GREATEST {
        None
    } else {
        Some(signed(is_negative(text), magnitude))
    }
}

fn signed(is_negative: bool, magnitude: u64) -> i64
    requires { magnitude ≤ GREATEST }
    ensures { result ≡ signed is_negative magnitude }
{
    let value = magnitude as i64;
    if is_negative { -value } else { value }
}

/// A number from `low` to `high`. A minus before 0 means nothing.
pub(crate) fn amount_within(text: &[u8], low: u64, high: u64) -> Option<u64>
    requires { high < u64.MAX }
    ensures value { result ≡ amount_within low high text.now }
    ensures range { IfSome result (λ n. (low ≤ n) × (n ≤ high)) }
{
    let amount = magnitude(text);
    if is_negative(text) && amount > 0 {
        return None;
    }
    if low <= amount && amount <= high {
        Some(amount)
    } else {
        None
    }
}

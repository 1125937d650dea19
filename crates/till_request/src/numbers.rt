//! Parses numbers in decimal digits.
ghost use Rattle.std.specs.Prelude.{◌≡◌, ◌≢◌, ◌⊎◌, ◌+◌, ◌*◌, ◌^◌, ◌≤◌, ◌&&◌, nat_lt, true, false, IfSome, IfNone, Err};
ghost use Rattle.std.specs.Char.{digit_value, is_ascii_digit};
ghost use Rattle.std.specs.List.{list_all};
ghost use Rattle.std.specs.Str.Parse.{digits_value};
ghost use Rattle.till_request.specs.Grammar.{number, has_no_leading_zero};

use crate::act::LineFault;

/// `value` with one more digit at its end; `None` if `byte` is no digit, or the result isn't below 2^64.
fn with_digit(value: u64, byte: u8) -> Option<u64>
    ensures some { IfSome result (λ more. (is_ascii_digit byte ≡ true) × (more ≡ value * 10 + digit_value byte)) }
    ensures none { IfNone result ((is_ascii_digit byte ≡ false) ⊎ (2 ^ 64 ≤ value * 10 + digit_value byte)) }
{
    if !byte.is_ascii_digit() {
        return None;
    }
    value.checked_mul(10)?.checked_add(u64::from(byte - b'0'))
}

/// The number of decimal digits below 2^64. Leading zeros are allowed, and an empty word is 0.
fn value_of(word: &[u8]) -> Option<u64>
    ensures some { IfSome result (λ n. (list_all is_ascii_digit word.now ≡ true) × (n ≡ digits_value 10 word.now)) }
    ensures none { IfNone result
        ((list_all is_ascii_digit word.now && nat_lt (digits_value 10 word.now) (2 ^ 64)) ≡ false) }
{
    let mut value = 0u64;
    for byte in word {
        value = with_digit(value, *byte)?;
    }
    Some(value)
}

/// Whether a word isn't empty and has no leading zero; `0` has none.
fn is_canonical(word: &[u8]) -> bool
    ensures { result ≡ has_no_leading_zero word.now }
{
    if word.len() == 1 {
        true
    } else {
        !word.is_empty() && word[0] != b'0'
    }
}

/// The number below 2^64 of decimal digits without leading zeros, else `BadNumber`.
pub fn number_u64(word: &[u8]) -> Result<u64, LineFault>
    // proved: It reads a number by its digits | leading_zero_is_taken
    ensures value { result ≡ number 64 word.now }
    ensures memory { result ≢ Err LineFault.OutOfMemory }
{
    if !is_canonical(word) {
        return Err(LineFault::BadNumber);
    }
    match value_of(word) {
        Some(value) => Ok(value),
        None => Err(LineFault::BadNumber),
    }
}

/// The number below 2^32 of decimal digits without leading zeros, else `BadNumber`.
pub fn number_u32(word: &[u8]) -> Result<u32, LineFault>
    ensures value { result ≡ number 32 word.now }
    ensures memory { result ≢ Err LineFault.OutOfMemory }
{
    match u32::try_from(number_u64(word)?) {
        Ok(number) => Ok(number),
        Err(_) => Err(LineFault::BadNumber),
    }
}

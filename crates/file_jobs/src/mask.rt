//! The number that the option `--counters` gives.
ghost use Rattle.std.specs.Prelude.{◌≡◌, Some, false, fold, option_map};
ghost use Rattle.file_jobs.specs.Mask.{behind_0x, digit_value, letter_value, mask_named, number_of};
ghost use Rattle.file_jobs.specs.Mask.{radix_times, with_digit, without_plus};

fn letter_value(byte: u8) -> Option<u8>
    ensures { result ≡ letter_value byte }
{
    if b'a' <= byte && byte <= b'f' {
        Some(byte - 87)
    } else if b'A' <= byte && byte <= b'F' {
        Some(byte - 55)
    } else {
        None
    }
}

fn digit_value(is_hexadecimal: bool, byte: u8) -> Option<u8>
    ensures { result ≡ digit_value is_hexadecimal byte }
{
    if b'0' <= byte && byte <= b'9' {
        Some(byte - 48)
    } else if is_hexadecimal {
        letter_value(byte)
    } else {
        None
    }
}

fn radix_times(is_hexadecimal: bool, number: u32) -> u64
    ensures { result ≡ radix_times is_hexadecimal number }
{
    if is_hexadecimal {
        16 * u64::from(number)
    } else {
        10 * u64::from(number)
    }
}

/// Returns a number with a digit behind it, if it is one of 32 bits.
fn with_digit(is_hexadecimal: bool, number: Option<u32>, byte: u8) -> Option<u32>
    ensures { result ≡ with_digit is_hexadecimal number byte }
{
    let number = number?;
    let digit = digit_value(is_hexadecimal, byte)?;
    let sum = radix_times(is_hexadecimal, number) + u64::from(digit);
    if sum < 4_294_967_296 {
        Some(sum as u32)
    } else {
        None
    }
}

fn number_of(is_hexadecimal: bool, digits: &[u8]) -> Option<u32>
    ensures { result ≡ number_of is_hexadecimal digits.now }
{
    if digits.is_empty() {
        return None;
    }
    digits_read(is_hexadecimal, digits)
}

fn digits_read(is_hexadecimal: bool, digits: &[u8]) -> Option<u32>
    ensures { result ≡ fold (with_digit is_hexadecimal) (Some 0) digits.now }
{
    let mut number = Some(0);
    for byte in digits {
        number = with_digit(is_hexadecimal, number, *byte);
    }
    number
}

fn behind_0x(text: &[u8]) -> Option<&[u8]>
    ensures { option_map (λ digits. digits.now) result ≡ behind_0x text.now }
{
    match text {
        [first, second, digits @ ..] => {
            if *first == b'0' && *second == b'x' {
                Some(digits)
            } else {
                None
            }
        }
        _ => None,
    }
}

fn without_plus(text: &[u8]) -> &[u8]
    ensures { result.now ≡ without_plus text.now }
{
    match text {
        [first, rest @ ..] => { if *first == b'+' { rest } else { text } }
        [] => text,
    }
}

/// Returns the number of 32 bits that decimal digits write.
pub fn decimal_named(text: &str) -> Option<u32>
    ensures { result ≡ number_of false text.now }
{
    number_of(false, text.as_bytes())
}

/// Returns the mask that a text gives: hexadecimal digits behind `0x`, or decimal ones.
pub fn mask_named(text: &str) -> Option<u32>
    // proved: A mask is decimal, or hexadecimal behind 0x
    ensures { result ≡ mask_named text.now }
{
    let bytes = text.as_bytes();
    match behind_0x(bytes) {
        Some(digits) => number_of(true, digits),
        None => number_of(false, without_plus(bytes)),
    }
}

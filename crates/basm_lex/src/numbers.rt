//! Numbers in a text.

ghost use Rattle.std.specs.Prelude.{◌≡◌, ◌≤◌, ◌<◌, ◌^◌, ℕ, ℤ, pos, negsuc, ◌≤ℤ◌, FitsSigned, IfOk, OkIff};
ghost use Rattle.std.specs.Bool.{MatchBool};
ghost use Rattle.std.specs.Int.{w32, cast_signed};
ghost use Rattle.std.specs.Str.Parse.{IsNumeral, digits_value};
ghost use Rattle.basm_lex.specs.Numbers.{IsDecimal, IsHexadecimal, IsNumeralBelow, IsShortDecimal, WritesDistance, WritesMagnitude, WritesNumber, WritesWide, WritesWideDecimal, decimal_value, pattern_value};

use thiserror::Error;

/// Why a word is not the number that its place needs.
#[derive(Clone, Copy, Debug, PartialEq, Eq, Error)]
pub enum NumberFault {
    /// It is no number.
    #[error("no number")]
    Form,
    /// It is a number that does not fit.
    #[error("a number out of range")]
    Range,
}

/// The number of 32 bits that a word writes: a decimal with an optional minus, or `0x` and at most 8 hexadecimal
/// digits. These digits are its bits.
///
/// # Errors
///
/// - `Form`: the word is no number.
/// - `Range`: the number does not fit 32 bits.
pub fn number(word: &str) -> Result<i32, NumberFault>
    ensures writes { IfOk result (WritesNumber word.now) }
    ensures exact { (value : ℤ) → WritesNumber word.now value → result ≡ Ok value }
{
    match word.strip_prefix("0x") {
        Some(digits) => pattern(digits),
        None => decimal(word),
    }
}

/// The number of 64 bits that a word writes: a decimal from -2^63 to 2^64 - 1, or `0x` and at most 16 hexadecimal
/// digits.
///
/// # Errors
///
/// - `Form`: the word is no number.
/// - `Range`: the number does not fit 64 bits.
pub fn wide_number(word: &str) -> Result<u64, NumberFault>
    ensures writes { IfOk result (WritesWide word.now) }
    ensures exact { (value : ℕ) → WritesWide word.now value → result ≡ Ok value }
{
    match word.strip_prefix("0x") {
        Some(digits) => wide_pattern(digits),
        None => wide_decimal(word),
    }
}

/// The distance that a word writes: a plus or a minus, and after it decimal digits or `0x` and at most 8 hexadecimal
/// digits. The hexadecimal digits are the bits of a number of 32 bits.
///
/// # Errors
///
/// - `Form`: the word is no distance.
/// - `Range`: the digits do not fit 32 bits.
pub fn distance(word: &str) -> Result<i64, NumberFault>
    ensures writes { IfOk result (WritesDistance word.now) }
    ensures exact { (value : ℤ) → WritesDistance word.now value → FitsSigned w32 value
        → result ≡ Ok value }
{
    if let Some(rest) = word.strip_prefix('+') {
        return magnitude(rest);
    }
    match word.strip_prefix('-') {
        Some(rest) => Ok(-magnitude(rest)?),
        None => Err(NumberFault::Form),
    }
}

/// The number after the sign of a distance.
///
/// # Errors
///
/// - `Form`: the word is no number without a sign.
/// - `Range`: the digits do not fit 32 bits.
pub fn magnitude(word: &str) -> Result<i64, NumberFault>
    ensures writes { IfOk result (WritesMagnitude word.now) }
    ensures low { IfOk result (λ n. negsuc 2147483647 ≤ℤ n) }
    ensures exact { (value : ℤ) → WritesMagnitude word.now value → value ≤ℤ pos 2147483648
        → result ≡ Ok value }
{
    match word.strip_prefix("0x") {
        Some(digits) => Ok(i64::from(pattern(digits)?)),
        None => Ok(i64::from(long_decimal(word)?)),
    }
}

fn pattern(digits: &str) -> Result<i32, NumberFault>
    ensures { OkIff result (IsHexadecimal 8 digits.now) (pattern_value digits.now) }
{
    if !is_numeral(digits, 16) {
        return Err(NumberFault::Form);
    }
    if digits.len() > 8 {
        return Err(NumberFault::Range);
    }
    match u32::from_str_radix(digits, 16) {
        Ok(bits) => Ok(bits.cast_signed()),
        Err(_) => Err(NumberFault::Range),
    }
}

fn wide_pattern(digits: &str) -> Result<u64, NumberFault>
    ensures { OkIff result (IsHexadecimal 16 digits.now) (digits_value 16 digits.now) }
{
    if !is_numeral(digits, 16) {
        return Err(NumberFault::Form);
    }
    if digits.len() > 16 {
        return Err(NumberFault::Range);
    }
    match u64::from_str_radix(digits, 16) {
        Ok(value) => Ok(value),
        Err(_) => Err(NumberFault::Range),
    }
}

fn decimal(word: &str) -> Result<i32, NumberFault>
    ensures { OkIff result (IsShortDecimal word.now) (decimal_value word.now) }
{
    if !is_decimal(word) {
        return Err(NumberFault::Form);
    }
    word.parse::<i32>().map_err(|_| NumberFault::Range)
}

fn wide_decimal(word: &str) -> Result<u64, NumberFault>
    ensures writes { IfOk result (WritesWide word.now) }
    ensures exact { (value : ℕ) → WritesWideDecimal word.now value → result ≡ Ok value }
{
    if !is_decimal(word) {
        return Err(NumberFault::Form);
    }
    if word.starts_with('-') {
        let value = word.parse::<i64>().map_err(|_| NumberFault::Range)?;
        Ok(value.cast_unsigned())
    } else {
        word.parse::<u64>().map_err(|_| NumberFault::Range)
    }
}

/// A decimal without a sign.
fn long_decimal(digits: &str) -> Result<u32, NumberFault>
    ensures { OkIff result (IsNumeralBelow (2 ^ 32) digits.now) (digits_value 10 digits.now) }
{
    if !is_numeral(digits, 10) {
        return Err(NumberFault::Form);
    }
    digits.parse::<u32>().map_err(|_| NumberFault::Range)
}

/// Whether the word is decimal digits after an optional minus.
fn is_decimal(word: &str) -> bool
    ensures { MatchBool result (IsDecimal word.now) (¬ IsDecimal word.now) }
{
    match word.strip_prefix('-') {
        Some(digits) => is_numeral(digits, 10),
        None => is_numeral(word, 10),
    }
}

/// Whether the text is one digit or more in the radix.
fn is_numeral(text: &str, radix: u32) -> bool
    requires low { 2 ≤ radix }
    requires high { radix ≤ 36 }
    ensures { MatchBool result (IsNumeral radix text.now) (¬ IsNumeral radix text.now) }
{
    let mut rest = text.as_bytes();
    while let [digit, after @ ..] = rest {
        if !char::from(*digit).is_digit(radix) {
            return false;
        }
        rest = after;
    }
    !text.is_empty()
}

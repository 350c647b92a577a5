//! Decimal numbers as text.

ghost use Rattle.std.specs.Prelude.{◌≡◌, ◌+◌, ◌-◌, ◌/◌, ◌%◌, ◌^◌, ◌<◌, ◌≤◌, ◌++◌, ◌∷◌, [], ℤ, pos, ◌*ℤ◌, IfSome, IsNone};
ghost use Rattle.arrayvec.specs.ArrayString.{array_string_len};
ghost use Rattle.jiff_fmt.specs.Text as printed;
ghost use Rattle.jiff_core.specs.Sign.{signed};
ghost use Rattle.valuetext.specs.inner.Scan as scan;
ghost use Rattle.valuetext.specs.Decimals.{IsDecimalNumber, IsDecimalText, ReadsDecimal, sign_of, unsigned_text};

use arrayvec::ArrayString;

/// Ten to a power of at most 38.
fn power_of_ten(exponent: u8) -> u128
    requires { exponent ≤ 38 }
    ensures value { result ≡ 10 ^ exponent }
    ensures bound { (0 < result) × (result ≤ 10 ^ 38) }
{
    10_u128.pow(exponent as u32)
}

/// The first of so many digits of a rest below that power of ten, and the rest of it.
#[tactic(auto, using(crate::proofs::DecimalTexts::digit_is))]
fn split_digit(rest: u128, places: u8) -> (u8, u128)
    requires places { (1 ≤ places) × (places ≤ 38) }
    requires rest { rest < 10 ^ places }
    ensures digit { (result.0 ≡ rest / 10 ^ (places - 1)) × (result.0 < 10) }
    ensures left { (result.1 ≡ rest % 10 ^ (places - 1)) × (result.1 < 10 ^ (places - 1)) }
{
    let place = power_of_ten(places - 1);
    ((rest / place) as u8, rest % place)
}

/// Appends a byte of ASCII.
fn push_byte(text: &mut ArrayString<80>, byte: u8)
    requires ascii { byte < 128 }
    requires room { array_string_len text.old < 80 }
    ensures text { text.new.bytes ≡ text.old.bytes ++ byte ∷ [] }
    ensures len { array_string_len text.new ≡ array_string_len text.old + 1 }
{
    text.push(byte as char);
}

/// Appends so many digits of a rest below that power of ten.
fn put_places(rest: u128, places: u8, text: &mut ArrayString<80>)
    requires places { places ≤ 38 }
    requires rest { rest < 10 ^ places }
    requires room { array_string_len text.old + places ≤ 80 }
    ensures { text.new.bytes ≡ text.old.bytes ++ printed.places places (10 ^ places) rest }
{
    if places == 0 {
        return;
    }
    let (digit, left) = split_digit(rest, places);
    push_byte(text, b'0' + digit);
    put_places(left, places - 1, text);
}

/// Appends the text of a magnitude.
#[tactic(auto, using(crate::proofs::DecimalTexts::whole_made, crate::proofs::DecimalTexts::fraction_made))]
fn put_magnitude(magnitude: u128, scale: u8, text: &mut ArrayString<80>)
    requires scale { scale ≤ 38 }
    requires room { array_string_len text.old ≤ 1 }
    ensures { text.new.bytes ≡ text.old.bytes ++ unsigned_text scale magnitude }
{
    let power = power_of_ten(scale);
    let mut digits = itoa::Buffer::new();
    text.push_str(digits.format(magnitude / power));
    if scale == 0 {
        return;
    }
    push_byte(text, b'.');
    put_places(magnitude % power, scale, text);
}

/// Appends a minus sign for a number below zero.
fn put_sign(number: i128, text: &mut ArrayString<80>)
    requires { array_string_len text.old ≡ 0 }
    ensures text { text.new.bytes ≡ text.old.bytes ++ sign_of number }
    ensures len { array_string_len text.new ≤ 1 }
{
    if number < 0 {
        push_byte(text, b'-');
    }
}

/// The text of a number with a scale of at most 38.
pub fn decimal_text(number: i128, scale: u8) -> ArrayString<80>
    requires { scale ≤ 38 }
    ensures { IsDecimalText scale number result.bytes }
{
    let mut text = ArrayString::new();
    put_sign(number, &mut text);
    put_magnitude(number.unsigned_abs(), scale, &mut text);
    text
}

/// The number with one more byte of a text. None exactly if it is 2^128 or more.
fn with_byte(number: u128, byte: u8) -> Option<u128>
    ensures number { IfSome result (λ n. n ≡ scan.with_byte number byte) }
    ensures none { IsNone result → 2 ^ 128 ≤ scan.with_byte number byte }
{
    if byte == b'.' || byte == b'-' {
        return Some(number);
    }
    let Some(tenfold) = number.checked_mul(10) else {
        return None;
    };
    tenfold.checked_add(byte.saturating_sub(b'0') as u128)
}

/// The number that the digits of a text make. None exactly if it is 2^128 or more.
fn digits_in(text: &[u8]) -> Option<u128>
    ensures number { IfSome result (λ n. n ≡ scan.digits_after 0 text.now) }
    ensures none { IsNone result → 2 ^ 128 ≤ scan.digits_after 0 text.now }
{
    let mut number: u128 = 0;
    for byte in text {
        let Some(next) = with_byte(number, *byte) else {
            return None;
        };
        number = next;
    }
    Some(number)
}

/// How many bytes of a text come after its first dot.
fn places_in(text: &[u8]) -> usize
    ensures { result ≡ scan.places_in text.now }
{
    for (i, byte) in text.iter().enumerate() {
        if *byte == b'.' {
            return text.len() - i - 1;
        }
    }
    0
}

/// The number with a sign and a magnitude. None exactly if it has more than 16 bytes.
fn with_sign(negative: bool, magnitude: u128) -> Option<i128>
    ensures number { IfSome result (λ n. n ≡ signed negative magnitude) }
    ensures none { IsNone result → ¬ (IsDecimalNumber (signed negative magnitude)) }
{
    if magnitude < 1 << 127 {
        let number = magnitude as i128;
        return Some(if negative { -number } else { number });
    }
    if negative && magnitude == 1 << 127 {
        return Some(i128::MIN);
    }
    None
}

/// The number that the digits of a text make, below zero if it begins with a minus sign. None exactly if it has more than 16 bytes.
fn shown(text: &[u8]) -> Option<i128>
    ensures number { IfSome result (λ n. n ≡ scan.number_written text.now) }
    ensures none { IsNone result → ¬ (IsDecimalNumber (scan.number_written text.now)) }
{
    let Some(magnitude) = digits_in(text) else {
        return None;
    };
    let negative = match text.first() {
        Some(byte) => *byte == b'-',
        None => false,
    };
    with_sign(negative, magnitude)
}

/// The number with so many more places. None exactly if it has more than 16 bytes.
fn with_missing(shown: i128, missing: u8) -> Option<i128>
    requires { missing ≤ 38 }
    ensures number { IfSome result (λ n. n ≡ shown *ℤ pos (10 ^ missing)) }
    ensures none { IsNone result → ¬ (IsDecimalNumber (shown *ℤ pos (10 ^ missing))) }
{
    let power = power_of_ten(missing) as i128;
    shown.checked_mul(power)
}

/// The number with a scale of at most 38 that a text is read as. None exactly if it is read as none of at most 16 bytes.
pub fn read_decimal(text: &[u8], scale: u8) -> Option<i128>
    requires { scale ≤ 38 }
    ensures number { IfSome result (λ number. ReadsDecimal scale number text.now) }
    ensures none { IsNone result → (number : ℤ) → IsDecimalNumber number → ¬ (ReadsDecimal scale number text.now) }
{
    let places = places_in(text);
    if places > scale as usize {
        return None;
    }
    let places = places as u8;
    let Some(shown) = shown(text) else {
        return None;
    };
    let printed = decimal_text(shown, places);
    if printed.as_bytes() != text {
        return None;
    }
    with_missing(shown, scale - places)
}

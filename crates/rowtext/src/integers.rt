//! Integers from the text of JSON numbers.

ghost use Rattle.std.specs.Prelude.{◌≡◌, ◌+◌, ◌<◌, ◌≤◌, ◌∷◌, ◌++◌, IfSome, decimal, drop, length};

/// How many digits may stand after one digit in a number that cannot pass 64 bits.
const FEW_DIGITS: usize = 17;

/// The number below 2^64 whose decimal digits stand at the front, with no zero before another digit, and how many
/// they are.
#[inline(always)]
pub fn natural_front(bytes: &[u8]) -> Option<(u64, usize)>
    ensures { IfSome result (λ r. (bytes.now ≡ decimal r.0 ++ drop r.1 bytes.now) × (r.1 ≤ length bytes.now)) }
{
    let (first, rest) = split_first(bytes)?;
    let first = digit_of(first)?;
    if first == 0 {
        return Some((0, 1));
    }
    let (number, count) = front_after(first, rest)?;
    Some((number, count + 1))
}

/// The value of a decimal digit.
fn digit_of(byte: u8) -> Option<u64>
    ensures { IfSome result (λ n. (n < 10) × (byte ≡ 48 + n)) }
{
    if byte.is_ascii_digit() {
        Some(u64::from(byte - b'0'))
    } else {
        None
    }
}

/// The first byte, and the others.
#[inline(always)]
pub fn split_first(bytes: &[u8]) -> Option<(u8, &[u8])>
    ensures { IfSome result (λ parts. bytes.now ≡ parts.0 ∷ parts.1.now) }
{
    let (first, rest) = bytes.split_first()?;
    Some((*first, rest))
}

/// The number that the digits at the front are after one digit, and how many they are.
#[inline(always)]
fn front_after(before: u64, digits: &[u8]) -> Option<(u64, usize)>
    requires some { 0 < before }
    requires one { before < 10 }
    ensures { IfSome result (λ r. (decimal before ++ digits.now ≡ decimal r.0 ++ drop r.1 digits.now) × (r.1 ≤ length digits.now)) }
{
    let (number, count) = few_after(before, digits);
    if count < FEW_DIGITS {
        Some((number, count))
    } else {
        more_after(number, digits, count)
    }
}

/// The number that the first digits at the front, at most 17, are after one digit, and how many they are. So few digits
/// cannot make a number that passes 64 bits.
#[inline(always)]
fn few_after(before: u64, digits: &[u8]) -> (u64, usize)
    requires some { 0 < before }
    requires one { before < 10 }
    ensures some { 0 < result.0 }
    ensures front { decimal before ++ digits.now ≡ decimal result.0 ++ drop result.1 digits.now }
    ensures within { result.1 ≤ length digits.now }
{
    let most = digits.len().min(FEW_DIGITS);
    let mut number = before;
    let mut count = 0;
    while count < most && digits[count].is_ascii_digit() {
        number = number * 10 + u64::from(digits[count] - b'0');
        count += 1;
    }
    (number, count)
}

/// The number that the digits from an index on are after those of another, and where they end; none where it passes 64 bits.
#[inline(never)]
fn more_after(before: u64, digits: &[u8], from: usize) -> Option<(u64, usize)>
    requires some { 0 < before }
    requires within { from ≤ length digits.now }
    ensures { IfSome result (λ r. (decimal before ++ drop from digits.now ≡ decimal r.0 ++ drop r.1 digits.now) × (r.1 ≤ length digits.now)) }
{
    let mut number = before;
    for at in from..digits.len() {
        let Some(digit) = digit_of(digits[at]) else {
            return Some((number, at));
        };
        number = number.checked_mul(10)?.checked_add(digit)?;
    }
    Some((number, digits.len()))
}

//! Numbers as bytes in two's complement, the highest byte first.

ghost use Rattle.std.specs.Prelude.{◌≡◌, ◌<◌, ◌≤◌, ◌-◌, ◌^◌, ◌⊎◌, ◌+◌, ◌∷◌, ◌*ℤ◌, ◌+ℤ◌, ◌↔◌, ℕ, ℤ, pos, neg_ℤ, List, length, IfSome, IsNone, IsTrue};
ghost use Rattle.jiff_core.specs.Calendar.{IsBetween};
ghost use Rattle.arrayvec.specs.ArrayVec.{array_vec_len};
ghost use Rattle.valuetext.specs.TwosComplement as twos;

use arrayvec::ArrayVec;

/// A byte as a number from -128 to 127.
fn signed_byte(byte: u8) -> i128
    ensures value { result ≡ twos.signed_byte byte }
    ensures bound { IsBetween (neg_ℤ (pos 128)) (pos 127) result }
{
    if byte < 128 {
        byte as i128
    } else {
        byte as i128 - 256
    }
}

/// The number with one more byte.
fn with_byte(number: i128, byte: u8) -> i128
    requires { IsBetween (neg_ℤ (pos (2 ^ 119))) (pos (2 ^ 119 - 1)) number }
    ensures value { result ≡ number *ℤ pos 256 +ℤ pos byte }
    ensures byte { byte < 256 }
{
    number * 256 + byte as i128
}

/// The number that 1 to 16 bytes are. None exactly for no bytes or more than 16.
pub fn number_of(bytes: &[u8]) -> Option<i128>
    ensures number { IfSome result (λ number. number ≡ twos.signed_of bytes.now) }
    ensures few { IfSome result (λ _. (1 ≤ length bytes.now) × (length bytes.now ≤ 16)) }
    ensures none { IsNone result → (length bytes.now ≡ 0) ⊎ (16 < length bytes.now) }
{
    let [first, rest @ ..] = bytes else {
        return None;
    };
    if rest.len() > 15 {
        return None;
    }
    let mut number = signed_byte(*first);
    for byte in rest {
        number = with_byte(number, *byte);
    }
    Some(number)
}

/// Whether the first byte only repeats the sign of the second, so that the rest are the same number.
pub fn repeats_sign(bytes: &[u8]) -> bool
    ensures { result ≡ twos.repeats_sign bytes.now }
{
    match bytes {
        [first, second, ..] => (*first == 0 && *second < 128) || (*first == 255 && *second >= 128),
        _ => false,
    }
}

/// The last byte of a number, and what is before it.
fn split_byte(number: i128) -> (i128, u8)
    ensures whole { number ≡ result.0 *ℤ pos 256 +ℤ pos result.1 }
    ensures before { IsBetween (neg_ℤ (pos (2 ^ 120))) (pos (2 ^ 120)) result.0 }
    ensures byte { result.1 < 256 }
{
    (number.div_euclid(256), number.rem_euclid(256) as u8)
}

/// Puts a byte before others.
fn put_first(byte: u8, bytes: &mut ArrayVec<u8, 16>)
    requires { array_vec_len bytes.old < 16 }
    ensures items { bytes.new.items ≡ byte ∷ bytes.old.items }
    ensures len { array_vec_len bytes.new ≡ array_vec_len bytes.old + 1 }
{
    bytes.insert(0, byte);
}

/// So many bytes, from 1 to 16, that are the number. None exactly if it needs more.
pub fn bytes_of(number: i128, len: usize) -> Option<ArrayVec<u8, 16>>
    requires { (1 ≤ len) × (len ≤ 16) }
    ensures number { IfSome result (λ bytes. twos.signed_of bytes.items ≡ number) }
    ensures length { IfSome result (λ bytes. array_vec_len bytes ≡ len) }
    ensures bytes { IfSome result (λ bytes. twos.AreByteValues bytes.items) }
    ensures none { IsNone result → (bytes : List ℕ) → twos.AreByteValues bytes → length bytes ≡ len → ¬ (twos.signed_of bytes ≡ number) }
{
    let mut bytes = ArrayVec::new();
    let mut rest = number;
    'bytes: for _ in 0..len - 1 {
        let (before, byte) = split_byte(rest);
        put_first(byte, &mut bytes);
        rest = before;
    }
    if rest < -128 || rest > 127 {
        return None;
    }
    let (_, first) = split_byte(rest);
    put_first(first, &mut bytes);
    Some(bytes)
}

/// Whether the number is one from -128 to 127.
fn is_one_byte(number: i128) -> bool
    ensures { IsTrue result ↔ IsBetween (neg_ℤ (pos 128)) (pos 127) number }
{
    number >= -128 && number <= 127
}

/// The shortest bytes that are the number: from 1 to 16, and the first does not only repeat the sign of the second.
pub fn shortest_bytes_of(number: i128) -> ArrayVec<u8, 16>
    ensures number { twos.signed_of result.items ≡ number }
    ensures shortest { twos.AreShortest result.items }
    ensures bytes { twos.AreByteValues result.items }
    ensures length { array_vec_len result ≤ 16 }
{
    let mut bytes = ArrayVec::new();
    let mut rest = number;
    'bytes: for _ in 0..15_usize {
        if is_one_byte(rest) {
            break;
        }
        let (before, byte) = split_byte(rest);
        put_first(byte, &mut bytes);
        rest = before;
    }
    let (_, first) = split_byte(rest);
    put_first(first, &mut bytes);
    bytes
}

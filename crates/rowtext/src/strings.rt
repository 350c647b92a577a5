//! JSON strings, escaped where they have to be, and the hexadecimal digits of bytes.

ghost use Rattle.std.specs.Prelude.{◌≡◌, ◌++◌, ◌+◌, ◌*◌, ◌<◌, ◌≤◌, length, OnOk, slice_index};
ghost use Rattle.hex.specs.Hex.{encode_lower, lower_digits};
ghost use Rattle.json.specs.Print.{escape_letter, escape_byte, escape, quoted};

use crate::line::Line;
use crate::plain_front::plain_front;
use std::alloc::AllocError;

/// The digits of hexadecimal numbers.
const DIGITS: [u8; 16] = *b"0123456789abcdef";

/// More bytes than any memory has.
const MOST_BYTES: usize = 4_611_686_018_427_387_904;

/// Appends a string in quotes, at once where nothing has to be escaped.
#[inline(always)]
pub fn put_string(bytes: &[u8], out: &mut Line) -> Result<(), AllocError>
    ensures { OnOk result (out.new.items ≡ out.old.items ++ quoted bytes.now) }
{
    out.reserve(bytes.len() + 2)?;
    place_string(bytes, out)
}

/// Appends a string in quotes, where there is room for it as it is.
#[inline(always)]
pub fn place_string(bytes: &[u8], out: &mut Line) -> Result<(), AllocError>
    requires { length bytes.now + 2 ≤ out.old.ready }
    ensures { OnOk result (out.new.items ≡ out.old.items ++ quoted bytes.now) }
{
    let len = out.len();
    out.place_byte(b'"');
    if !out.place_plain(bytes) {
        out.truncate(len);
        return put_slowly(bytes, out);
    }
    out.place_byte(b'"');
    Ok(())
}

/// Appends the hexadecimal digits of bytes, in quotes.
#[inline(never)]
pub fn put_digits(bytes: &[u8], out: &mut Line) -> Result<(), AllocError>
    ensures { OnOk result (out.new.items ≡ out.old.items ++ quoted (encode_lower bytes.now)) }
{
    if bytes.len() > MOST_BYTES {
        return Err(AllocError);
    }
    out.reserve(bytes.len() * 2 + 2)?;
    end_with_digits(bytes, out)
}

/// Appends the hexadecimal digits of bytes, in quotes, where there is room for them: a call that ends the caller, which
/// then has no registers to save.
#[inline(never)]
pub fn end_with_digits(bytes: &[u8], out: &mut Line) -> Result<(), AllocError>
    requires { 2 * length bytes.now + 2 ≤ out.old.ready }
    ensures { OnOk result (out.new.items ≡ out.old.items ++ quoted (encode_lower bytes.now)) }
{
    out.place_byte(b'"');
    out.place_digits(bytes);
    out.place_byte(b'"');
    Ok(())
}

/// The hexadecimal digit of a number below 16.
pub fn digit(number: u8) -> u8
    requires { number < 16 }
    ensures { result ≡ slice_index lower_digits number }
{
    DIGITS[usize::from(number)]
}

/// The letter of a byte's short escape, or 0.
pub fn escape_letter(byte: u8) -> u8
    ensures { result ≡ escape_letter byte }
{
    match byte {
        b'"' | b'\\' => byte,
        8 => b'b',
        12 => b'f',
        b'\n' => b'n',
        b'\r' => b'r',
        b'\t' => b't',
        _ => 0,
    }
}

/// Appends a byte of a string, escaped where it has to be.
#[tactic(auto, unfolding(json::specs::Print::escape_byte))]
fn put_byte(byte: u8, out: &mut Line) -> Result<(), AllocError>
    ensures { OnOk result (out.new.items ≡ out.old.items ++ escape_byte byte) }
{
    let letter = escape_letter(byte);
    if letter > 0 {
        out.reserve(2)?;
        out.place_byte(b'\\');
        out.place_byte(letter);
        return Ok(());
    }
    if byte < 32 {
        out.extend_from_slice(&[b'\\', b'u', b'0', b'0', digit(byte / 16), digit(byte % 16)])?;
        return Ok(());
    }
    out.push(byte)?;
    Ok(())
}

/// Appends the bytes of a string, escaped: those between two that have to be are appended at once.
fn put_escaped(bytes: &[u8], out: &mut Line) -> Result<(), AllocError>
    ensures { OnOk result (out.new.items ≡ out.old.items ++ escape bytes.now) }
{
    let mut rest = bytes;
    'rest: loop {
        let count = plain_front(rest);
        out.extend_from_slice(&rest[..count])?;
        rest = &rest[count..];
        let Some((byte, later)) = rest.split_first() else {
            return Ok(());
        };
        put_byte(*byte, out)?;
        rest = later;
    }
}

/// Appends a string in quotes that has bytes to be escaped.
#[cold]
#[inline(never)]
fn put_slowly(bytes: &[u8], out: &mut Line) -> Result<(), AllocError>
    ensures { OnOk result (out.new.items ≡ out.old.items ++ quoted bytes.now) }
{
    out.push(b'"')?;
    put_escaped(bytes, out)?;
    out.push(b'"')?;
    Ok(())
}

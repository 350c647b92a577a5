//! A row that was read from a line, as small pieces that borrow from it.

ghost use Rattle.std.specs.Prelude.{◌≡◌, ◌∷◌, [], Some, OnOk};
ghost use Rattle.assemble.specs.Sinks.{Adds, single};
ghost use Rattle.schema.specs.Values.{bytes};
ghost use Rattle.rowtext.specs.inner.Escapes.{IsText, unescape, string_in, bytes_in};
ghost use Rattle.rowtext.specs.inner.LowerDigits.{bytes_of_pairs};
ghost use Rattle.rowtext.specs.inner.Pieces.{token_of, tokens_of};

use crate::escapes::unescape;
use crate::hex_digits::{decode_digits, make_room};
use crate::quoted_strings::string_in;
use assemble::RowSink;
use json::Scratch;
use schema::ValueRef;
use std::alloc::AllocError;

/// A value of a row, or where a group or a list of it begins or ends.
#[derive(Debug, Clone, Copy)]
pub enum Piece<'t> {
    Null,
    Bool(bool),
    Int(i64),
    /// The bytes of a text.
    Text(&'t str),
    /// The bytes of a text, by the content of its string, in which escapes stand as they are printed.
    Escaped(&'t str),
    /// The bytes of a text, by its string in quotes, in which escapes stand in any form.
    Quoted(&'t str),
    /// Bytes, by their hexadecimal digits in lower case.
    Digits(&'t str),
    GroupBegins,
    GroupEnds,
    ListBegins,
    ListEnds,
}

/// Shows a sink the bytes of these digits, which are decoded into a buffer.
fn show_digits<K: RowSink>(
    digits: &str,
    buffer: &mut Vec<u8>,
    sink: &mut K,
) -> Result<(), AllocError>
    ensures shown { OnOk result (Adds (K.shows sink.old) (K.shows sink.new) (single (bytes (bytes_of_pairs digits.now)) ∷ [])) }
    ensures base_stays { K.base sink.new ≡ K.base sink.old }
{
    let count = digits.len() / 2;
    make_room(buffer, count)?;
    let bytes = &mut buffer.as_mut_slice()[..count];
    decode_digits(digits.as_bytes(), bytes);
    sink.bytes(bytes)
}

/// Shows a sink the bytes for which the content of a string stands, which are put into a buffer.
fn show_escaped<K: RowSink>(
    content: &str,
    buffer: &mut Vec<u8>,
    sink: &mut K,
) -> Result<(), AllocError>
    ensures shown { OnOk result (Adds (K.shows sink.old) (K.shows sink.new) (single (bytes (unescape content.now)) ∷ [])) }
    ensures base_stays { K.base sink.new ≡ K.base sink.old }
{
    unescape(content.as_bytes(), buffer)?;
    sink.bytes(buffer.as_slice())
}

/// Shows a sink the bytes of the text whose string this is.
#[cold]
#[inline(never)]
fn show_quoted<K: RowSink>(
    quoted: &str,
    scratch: &mut Scratch,
    sink: &mut K,
) -> Result<(), AllocError>
    ensures shown { OnOk result (Adds (K.shows sink.old) (K.shows sink.new) (single (bytes (bytes_in quoted.now)) ∷ [])) }
    ensures base_stays { K.base sink.new ≡ K.base sink.old }
{
    match string_in(quoted, scratch)? {
        Some(text) => sink.bytes(text.as_bytes()),
        None => sink.bytes(b""),
    }
}

/// Shows a sink a piece.
fn show_piece<K: RowSink>(
    piece: Piece<'_>,
    buffer: &mut Vec<u8>,
    scratch: &mut Scratch,
    sink: &mut K,
) -> Result<(), AllocError>
    ensures shown { OnOk result (Adds (K.shows sink.old) (K.shows sink.new) (token_of piece.entry ∷ [])) }
    ensures base_stays { K.base sink.new ≡ K.base sink.old }
{
    match piece {
        Piece::Null => sink.value(ValueRef::Null),
        Piece::Bool(boolean) => sink.value(ValueRef::Bool(boolean)),
        Piece::Int(number) => sink.int(number),
        Piece::Text(text) => sink.bytes(text.as_bytes()),
        Piece::Escaped(content) => show_escaped(content, buffer, sink),
        Piece::Quoted(quoted) => show_quoted(quoted, scratch, sink),
        Piece::Digits(digits) => show_digits(digits, buffer, sink),
        Piece::GroupBegins => sink.begin_group(),
        Piece::GroupEnds => sink.end_group(),
        Piece::ListBegins => sink.begin_list(),
        Piece::ListEnds => sink.end_list(),
    }
}

/// Shows a sink pieces, one after another. Bytes that do not stand in the line are made in a buffer or by the
/// lexer in its scratch, of which nothing is kept but their room. It fails only when out of memory.
pub fn show_pieces<K: RowSink>(
    pieces: &[Piece<'_>],
    buffer: &mut Vec<u8>,
    scratch: &mut Scratch,
    sink: &mut K,
) -> Result<(), AllocError>
    ensures shown { OnOk result (Adds (K.shows sink.old) (K.shows sink.new) (tokens_of pieces.now)) }
    ensures base_stays { K.base sink.new ≡ K.base sink.old }
{
    for piece in pieces {
        show_piece(*piece, buffer, scratch, sink)?;
    }
    Ok(())
}

/// A text that stands in a line as it is.
#[inline(always)]
pub fn text_piece<'t>(text: &'t str) -> Piece<'t>
    ensures text { IsText text.now }
    ensures shown { token_of result ≡ single (bytes text.now) }
{
    Piece::Text(text)
}

/// A text by its string in a line, which the lexer reads as this text.
#[inline(always)]
pub fn quoted_piece<'t>(quoted: &'t str, text: &str) -> Piece<'t>
    requires { string_in quoted.now ≡ Some text.now }
    ensures text { IsText text.now }
    ensures shown { token_of result ≡ single (bytes text.now) }
{
    Piece::Quoted(quoted)
}

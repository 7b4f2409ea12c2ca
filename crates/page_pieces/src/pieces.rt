ghost use Rattle.std.specs.Prelude.{◌≡◌, ◌++◌, decimal};
ghost use Rattle.texts.specs.Puts.{Puts};
ghost use Rattle.page_pieces.specs.Pieces.{escaped_byte, escaped, piece_text, pieces_text};

use itoa::Buffer;
use plan_memory::Memory;
use texts::put_text;

/// A piece of the page.
#[derive(Clone, Copy)]
pub enum Piece<'a> {
    /// Bytes as they are.
    Text(&'a [u8]),
    /// A number in digits.
    Number(u64),
    /// An id, with entities in place of the bytes that HTML reads as marks.
    Id(&'a [u8]),
}

// Appends a number.
fn put_digits(out: &mut Vec<u8>, number: u64) -> Result<(), Memory>
    ensures { Puts out.old.items out.new.items (decimal number) result }
{
    let mut buffer = Buffer::new();
    put_text(out, buffer.format(number).as_bytes())
}

// Appends a byte of an id.
fn put_byte(out: &mut Vec<u8>, byte: u8) -> Result<(), Memory>
    ensures { Puts out.old.items out.new.items (escaped_byte byte) result }
{
    match byte {
        b'<' => put_text(out, b"&lt;"),
        b'>' => put_text(out, b"&gt;"),
        b'&' => put_text(out, b"&amp;"),
        b'"' => put_text(out, b"&quot;"),
        b'\'' => put_text(out, b"&#39;"),
        _ => put_text(out, &[byte]),
    }
}

// Appends an id, escaped.
fn put_escaped(out: &mut Vec<u8>, id: &[u8]) -> Result<(), Memory>
    ensures { Puts out.old.items out.new.items (escaped id.now) result }
{
    for byte in id {
        put_byte(out, *byte)?;
    }
    Ok(())
}

fn put_piece(out: &mut Vec<u8>, piece: &Piece) -> Result<(), Memory>
    ensures { Puts out.old.items out.new.items (piece_text piece.now) result }
{
    match *piece {
        Piece::Text(text) => put_text(out, text),
        Piece::Number(number) => put_digits(out, number),
        Piece::Id(id) => put_escaped(out, id),
    }
}

// Appends pieces one after another.
pub fn put_pieces(out: &mut Vec<u8>, pieces: &[Piece]) -> Result<(), Memory>
    ensures { Puts out.old.items out.new.items (pieces_text pieces.now) result }
{
    for piece in pieces {
        put_piece(out, piece)?;
    }
    Ok(())
}

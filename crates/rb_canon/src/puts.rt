// Pieces of a text, none of which makes it too large.
ghost use Rattle.std.specs.Prelude.{◌≡◌, replicate, ◌∷◌, [], ◌++◌, codes};
ghost use Rattle.rb_causes.specs.Signs.{space};
ghost use Rattle.rb_canon.specs.Layout.{escaped_byte, escapes, in_quotes, most_bytes};
ghost use Rattle.rb_canon.specs.Puts.{Puts};

use crate::canon_err::CanonErr;

/// How many bytes a text may have.
const MOST_BYTES: usize = 1 << 20;

pub(crate) fn put(out: &mut Vec<u8>, piece: &[u8]) -> Result<(), CanonErr>
    ensures { Puts piece.now out.old.items out.new.items result }
{
    if piece.len() > MOST_BYTES.saturating_sub(out.len()) {
        return Err(CanonErr::TooLarge);
    }
    out.extend_from_slice(piece)?;
    Ok(())
}

pub(crate) fn put_blanks(out: &mut Vec<u8>, count: usize) -> Result<(), CanonErr>
    ensures { Puts (replicate count space) out.old.items out.new.items result }
{
    for _ in 0..count {
        put(out, b" ")?;
    }
    Ok(())
}

fn put_byte(out: &mut Vec<u8>, byte: u8) -> Result<(), CanonErr>
    ensures { Puts (escaped_byte byte) out.old.items out.new.items result }
{
    match byte {
        b'\n' => put(out, b"\\n"),
        b'\t' => put(out, b"\\t"),
        b'\\' => put(out, b"\\\\"),
        b'"' => put(out, b"\\\""),
        _ => put(out, &[byte]),
    }
}

fn put_escaped(out: &mut Vec<u8>, text: &[u8]) -> Result<(), CanonErr>
    ensures { Puts (escapes text.now) out.old.items out.new.items result }
{
    for byte in text {
        put_byte(out, *byte)?;
    }
    Ok(())
}

/// The text in double quotes.
pub(crate) fn put_quoted(out: &mut Vec<u8>, text: &str) -> Result<(), CanonErr>
    ensures { Puts (in_quotes text.now) out.old.items out.new.items result }
{
    put(out, b"\"")?;
    put_escaped(out, text.as_bytes())?;
    put(out, b"\"")
}

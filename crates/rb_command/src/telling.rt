//! Fault lines. They are made of nothing that takes memory, so only the sink can cut one short;
//! where it does, the status of the call stays as it is.
ghost use Rattle.rb_causes.specs.Sinks.{Writes};
ghost use Rattle.rb_command.specs.Lines.{usage_line, memory_line, shelf_line, absent_line, rule_line, place_line, key_line, bracketed};
ghost use Rattle.rb_command.specs.Told.{Tells};
ghost use Rattle.std.specs.List.{concat};
ghost use Rattle.std.specs.Prelude.{◌≡◌, ◌++◌, codes, map, option_map};

use itoa::Buffer;
use rb_causes::{Sink, Trouble, put_all};

/// Writes the pieces of a fault line.
pub fn tell<O: Sink>(out: &mut O, pieces: &[&[u8]])
    ensures { let line = concat (map (λ piece. piece.now) pieces.now) in
        Tells line (O.shown out.old) (O.shown out.new) }
{
    match put_pieces(out, pieces) {
        Ok(()) => {}
        Err(_) => {}
    }
}

// Writes the pieces, one behind the other.
fn put_pieces<O: Sink>(out: &mut O, pieces: &[&[u8]]) -> Result<(), Trouble>
    ensures { let line = concat (map (λ piece. piece.now) pieces.now) in
        Writes line (O.shown out.old) (O.shown out.new) result }
{
    for piece in pieces {
        put_all(out, piece)?;
    }
    Ok(())
}

/// Tells that the words are no form.
pub fn tell_usage<O: Sink>(out: &mut O)
    ensures { Tells usage_line (O.shown out.old) (O.shown out.new) }
{
    tell(out, &[b"rundeskd: usage\n".as_slice()]);
}

/// Tells that memory was wanting.
pub fn tell_memory<O: Sink>(out: &mut O)
    ensures { Tells memory_line (O.shown out.old) (O.shown out.new) }
{
    tell(out, &[b"rundeskd: out of memory\n".as_slice()]);
}

/// Tells that the shelf failed.
pub fn tell_shelf<O: Sink>(out: &mut O)
    ensures { Tells shelf_line (O.shown out.old) (O.shown out.new) }
{
    tell(out, &[b"rundeskd: shelf failed\n".as_slice()]);
}

/// Tells that there is no file of this name.
pub fn tell_absent<O: Sink>(out: &mut O, name: &str)
    ensures { Tells (absent_line name.now) (O.shown out.old) (O.shown out.new) }
{
    tell(
        out,
        &[
            b"rundeskd: ".as_slice(),
            name.as_bytes(),
            b": not there\n".as_slice(),
        ],
    );
}

/// Tells which rule a line of this file breaks, and the form that the rule speaks of, where it
/// does: `rundeskd: FILE:LINE: RULE`, or `rundeskd: FILE:LINE: RULE(FORM)`.
pub fn tell_rule<'a, O: Sink>(
    out: &mut O,
    file: &'a str,
    line: u64,
    rule: &'a str,
    form: Option<&'a str>,
)
    ensures { let of_form = option_map (λ f. f.now) form.entry in
        Tells (rule_line file.now line rule.now of_form) (O.shown out.old) (O.shown out.new) }
{
    tell_place(out, file, ":", line, rule, form);
}

/// Tells what is wrong at a numbered place of this file, and what that speaks of, where it does.
/// The mark stands between the file's name and the number: `rundeskd: FILE: document 2:
/// KIND(TEXT)`.
pub fn tell_place<'a, O: Sink>(
    out: &mut O,
    file: &'a str,
    mark: &'a str,
    number: u64,
    kind: &'a str,
    text: Option<&'a str>,
)
    ensures { let of_text = option_map (λ t. t.now) text.entry in
        Tells (place_line file.now mark.now number kind.now of_text)
        (O.shown out.old) (O.shown out.new) }
{
    let mut buffer = Buffer::new();
    let number = buffer.format(number).as_bytes();
    let (opening, text, closing) = in_brackets(text);
    tell(
        out,
        &[
            b"rundeskd: ".as_slice(),
            file.as_bytes(),
            mark.as_bytes(),
            number,
            b": ".as_slice(),
            kind.as_bytes(),
            opening,
            text,
            closing,
        ],
    );
}

/// Tells what is wrong under a key at a numbered place of this file: `rundeskd: FILE: job 2: KEY:
/// KIND`.
pub fn tell_key<'a, O: Sink>(
    out: &mut O,
    file: &'a str,
    mark: &'a str,
    number: u64,
    key: &'a str,
    kind: &'a str,
)
    ensures { Tells (key_line file.now mark.now number key.now kind.now)
        (O.shown out.old) (O.shown out.new) }
{
    let mut buffer = Buffer::new();
    let number = buffer.format(number).as_bytes();
    tell(
        out,
        &[
            b"rundeskd: ".as_slice(),
            file.as_bytes(),
            mark.as_bytes(),
            number,
            b": ".as_slice(),
            key.as_bytes(),
            b": ".as_slice(),
            kind.as_bytes(),
            b"\n".as_slice(),
        ],
    );
}

// The end of a line, with what it speaks of in brackets before it, where there is something.
fn in_brackets(text: Option<&str>) -> (&[u8], &[u8], &[u8])
    ensures { let of_text = option_map (λ t. t.now) text.entry in
        result.0.now ++ result.1.now ++ result.2.now ≡ bracketed of_text ++ codes "\n" }
{
    match text {
        Some(text) => (b"(".as_slice(), text.as_bytes(), b")\n".as_slice()),
        None => (b"".as_slice(), b"".as_slice(), b"\n".as_slice()),
    }
}

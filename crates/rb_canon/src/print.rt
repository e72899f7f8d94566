// Values, line by line.
ghost use Rattle.rb_canon.specs.declared.canon_err.CanonErr.TheVariants as variants;
ghost use Rattle.rb_canon.specs.Layout.{key_shown, canon_docs_of, most_bytes};
ghost use Rattle.rb_canon.specs.Puts.{Puts, value_piece, items_piece, item_piece, fields_piece, key_piece, behind_piece, text_piece, docs_piece, mark_before};
ghost use Rattle.rb_canon.specs.Values.{canons_of, fields_of, list_of, map_of};
ghost use Rattle.rb_canon.specs.Views.{canon_tree, canon_trees, field_view, key_view};
ghost use Rattle.rb_causes.specs.Signs.{space};
ghost use Rattle.std.specs.Prelude.{◌≡◌, ◌≢◌, ◌≤◌, ◌<◌, ◌+◌, [], ◌∷◌, ◌++◌, map, length, Err, IfOk};

use crate::canon_err::CanonErr;
use crate::puts::{put, put_blanks, put_quoted};
use crate::value::{Canon, Field, Key};
use std::alloc::Global;

/// The text of documents, parted by `---`; of none no bytes. TooLarge where it would have more than
/// 1,048,576 bytes.
pub fn print_docs(alloc: Global, docs: &[Canon]) -> Result<Vec<u8>, CanonErr>
    ensures text { IfOk result (λ text. text.items ≡ canon_docs_of (canon_trees docs.now)) }
    ensures short { IfOk result (λ text. length text.items ≤ most_bytes) }
    ensures large { result ≡ Err variants.TooLarge
        → most_bytes < length (canon_docs_of (canon_trees docs.now)) }
{
    let mut out = Vec::new(alloc);
    put_docs(&mut out, docs)?;
    Ok(out)
}

fn put_docs(out: &mut Vec<u8>, docs: &[Canon]) -> Result<(), CanonErr>
    ensures { Puts (docs_piece (canon_trees docs.now)) out.old.items out.new.items result }
{
    let mut first = true;
    for doc in docs {
        put_mark(out, first)?;
        put_value(out, 0, doc)?;
        first = false;
    }
    Ok(())
}

// What stands before a document: nothing before the first.
fn put_mark(out: &mut Vec<u8>, first: bool) -> Result<(), CanonErr>
    ensures { Puts (mark_before first) out.old.items out.new.items result }
{
    if first {
        return Ok(());
    }
    put(out, b"---\n")
}

// The indent of what is two blanks deeper. A text with an indent past the type's end takes more
// memory than there is.
fn deeper(indent: usize) -> Result<usize, CanonErr>
    ensures deeper { IfOk result (λ inner. inner ≡ indent + 2) }
    ensures small { result ≢ Err variants.TooLarge }
{
    match indent.checked_add(2) {
        Some(inner) => Ok(inner),
        None => Err(CanonErr::NoMemory),
    }
}

// A value behind the blanks of its first line.
#[cycle(print)]
fn put_value(out: &mut Vec<u8>, indent: usize, value: &Canon) -> Result<(), CanonErr>
    ensures { Puts (value_piece indent (canon_tree value.now))
        out.old.items out.new.items result }
{
    match value {
        Canon::Text(text) => put_text(out, text.as_str()),
        Canon::List(items) => put_list(out, indent, items.as_slice()),
        Canon::Map(fields) => put_map(out, indent, fields.as_slice()),
    }
}

// A text and the line's end.
fn put_text(out: &mut Vec<u8>, text: &str) -> Result<(), CanonErr>
    ensures { Puts (text_piece text.now) out.old.items out.new.items result }
{
    put_quoted(out, text)?;
    put(out, b"\n")
}

#[cycle(print)]
fn put_list(out: &mut Vec<u8>, indent: usize, items: &[Canon]) -> Result<(), CanonErr>
    ensures { Puts (value_piece indent (list_of (canon_trees items.now)))
        out.old.items out.new.items result }
{
    if items.is_empty() {
        return put(out, b"[]\n");
    }
    put_items(out, 0, indent, items)
}

// The items of a list, the first behind so many blanks.
#[cycle(print)]
fn put_items(out: &mut Vec<u8>, lead: usize, indent: usize, items: &[Canon]) -> Result<(), CanonErr>
    ensures { Puts (items_piece lead indent (canons_of (canon_trees items.now)))
        out.old.items out.new.items result }
{
    let mut blanks = lead;
    for item in items {
        put_blanks(out, blanks)?;
        put_item(out, indent, item)?;
        blanks = indent;
    }
    Ok(())
}

// An item behind its blanks.
#[cycle(print)]
fn put_item(out: &mut Vec<u8>, indent: usize, item: &Canon) -> Result<(), CanonErr>
    ensures { Puts (item_piece indent (canon_tree item.now))
        out.old.items out.new.items result }
{
    let inner = deeper(indent)?;
    put(out, b"- ")?;
    put_value(out, inner, item)
}

#[cycle(print)]
fn put_map(out: &mut Vec<u8>, indent: usize, fields: &[Field]) -> Result<(), CanonErr>
    ensures { Puts (value_piece indent (map_of (map field_view fields.now)))
        out.old.items out.new.items result }
{
    if fields.is_empty() {
        return put(out, b"{}\n");
    }
    put_fields(out, 0, indent, fields)
}

// The fields of a map, the first behind so many blanks.
#[cycle(print)]
fn put_fields(
    out: &mut Vec<u8>,
    lead: usize,
    indent: usize,
    fields: &[Field],
) -> Result<(), CanonErr>
    ensures { Puts (fields_piece lead indent (fields_of (map field_view fields.now)))
        out.old.items out.new.items result }
{
    let mut blanks = lead;
    for field in fields {
        put_blanks(out, blanks)?;
        put_key(out, &field.key)?;
        put_behind(out, indent, &field.value)?;
        blanks = indent;
    }
    Ok(())
}

// A key with its colon.
fn put_key(out: &mut Vec<u8>, key: &Key) -> Result<(), CanonErr>
    ensures { Puts (key_piece (key_view key.now)) out.old.items out.new.items result }
{
    put_shown(out, key)?;
    put(out, b":")
}

fn put_shown(out: &mut Vec<u8>, key: &Key) -> Result<(), CanonErr>
    ensures { Puts (key_shown (key_view key.now)) out.old.items out.new.items result }
{
    match key {
        Key::Plain(text) => put(out, text.as_str().as_bytes()),
        Key::Quoted(text) => put_quoted(out, text.as_str()),
    }
}

// What stands behind the colon of a key.
#[cycle(print)]
fn put_behind(out: &mut Vec<u8>, indent: usize, value: &Canon) -> Result<(), CanonErr>
    ensures { Puts (behind_piece indent (canon_tree value.now))
        out.old.items out.new.items result }
{
    match value {
        Canon::Text(text) => put_text_behind(out, text.as_str()),
        Canon::List(items) => put_list_behind(out, indent, items.as_slice()),
        Canon::Map(fields) => put_map_behind(out, indent, fields.as_slice()),
    }
}

fn put_text_behind(out: &mut Vec<u8>, text: &str) -> Result<(), CanonErr>
    ensures { Puts (space ∷ text_piece text.now)
        out.old.items out.new.items result }
{
    put(out, b" ")?;
    put_text(out, text)
}

#[cycle(print)]
fn put_list_behind(out: &mut Vec<u8>, indent: usize, items: &[Canon]) -> Result<(), CanonErr>
    ensures { Puts (behind_piece indent (list_of (canon_trees items.now)))
        out.old.items out.new.items result }
{
    if items.is_empty() {
        return put(out, b" []\n");
    }
    let inner = deeper(indent)?;
    put(out, b"\n")?;
    put_items(out, inner, inner, items)
}

#[cycle(print)]
fn put_map_behind(out: &mut Vec<u8>, indent: usize, fields: &[Field]) -> Result<(), CanonErr>
    ensures { Puts (behind_piece indent (map_of (map field_view fields.now)))
        out.old.items out.new.items result }
{
    if fields.is_empty() {
        return put(out, b" {}\n");
    }
    let inner = deeper(indent)?;
    put(out, b"\n")?;
    put_fields(out, inner, inner, fields)
}

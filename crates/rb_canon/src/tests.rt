//! Values and their texts.
use crate::{Canon, CanonErr, Field, Key, list, map, print_docs, text};
use rb_causes::{NoMemory, Text};
use std::alloc::Global;
use std::test::Fail;

fn said(alloc: Global, words: &str) -> Result<Canon, NoMemory> {
    Ok(text(Text::of(alloc, words)?))
}

fn plain(alloc: Global, key: &str, value: Canon) -> Result<Field, NoMemory> {
    Ok(Field::of(Key::Plain(Text::of(alloc, key)?), value))
}

fn quoted(alloc: Global, key: &str, value: Canon) -> Result<Field, NoMemory> {
    Ok(Field::of(Key::Quoted(Text::of(alloc, key)?), value))
}

fn one(alloc: Global, value: Canon) -> Result<Vec<Canon>, NoMemory> {
    let mut values = Vec::new(alloc);
    values.push(value)?;
    Ok(values)
}

/// A list of one value.
fn alone(alloc: Global, value: Canon) -> Result<Canon, NoMemory> {
    Ok(list(one(alloc, value)?))
}

/// A map of one field.
fn under(alloc: Global, field: Field) -> Result<Canon, NoMemory> {
    let mut fields = Vec::new(alloc);
    fields.push(field)?;
    Ok(map(fields))
}

/// Whether a document of this value has this text.
fn shows(alloc: Global, value: Canon, wanted: &str) -> Result<bool, CanonErr> {
    let docs = one(alloc, value)?;
    let shown = print_docs(alloc, docs.as_slice())?;
    Ok(shown.as_slice() == wanted.as_bytes())
}

/// A list of one job: a map with a map that has a list of maps.
fn job(alloc: Global) -> Result<Canon, NoMemory> {
    let act = plain(alloc, "exec", said(alloc, "\"echo\" \"hi\"")?)?;
    let commands = plain(alloc, "commands", alone(alloc, under(alloc, act)?)?)?;
    let filter = plain(alloc, "filter", said(alloc, "localhost")?)?;
    let mut fields = Vec::new(alloc);
    fields.push(plain(alloc, "name", said(alloc, "hello")?)?)?;
    fields.push(plain(alloc, "sequence", under(alloc, commands)?)?)?;
    fields.push(plain(alloc, "nodefilters", under(alloc, filter)?)?)?;
    alone(alloc, map(fields))
}

const TEXTS: [(&str, &str); 9] = [
    ("", "\"\"\n"),
    ("a b", "\"a b\"\n"),
    ("a\nb", "\"a\\nb\"\n"),
    ("a\tb", "\"a\\tb\"\n"),
    ("a\\b", "\"a\\\\b\"\n"),
    ("a\"b", "\"a\\\"b\"\n"),
    ("\\n\n", "\"\\\\n\\n\"\n"),
    ("--- # & * ! 'x': [y] ", "\"--- # & * ! 'x': [y] \"\n"),
    ("gr\u{fc}n", "\"gr\u{fc}n\"\n"),
];

#[test]
fn texts_stand_in_double_quotes_with_four_escapes(rt: HostRuntime) -> Result<(), Fail> {
    let alloc = rt.alloc();
    for (words, wanted) in TEXTS {
        assert!(rt; shows(alloc, said(alloc, words)?, wanted)?);
    }
    Ok(())
}

#[test]
fn items_stand_two_blanks_below_their_key(rt: HostRuntime) -> Result<(), Fail> {
    let alloc = rt.alloc();
    let wanted =
        "- name: \"hello\"\n  sequence:\n    commands:\n      - exec: \"\\\"echo\\\" \\\"hi\\\"\"\n  nodefilters:\n    filter: \"localhost\"\n";
    assert!(rt; shows(alloc, job(alloc)?, wanted)?);
    let nothing = under(alloc, quoted(alloc, "a b", list(Vec::new(alloc)))?)?;
    assert!(rt; shows(alloc, nothing, "\"a b\": []\n")?);
    let empty = alone(alloc, alone(alloc, map(Vec::new(alloc)))?)?;
    assert!(rt; shows(alloc, empty, "- - {}\n")?);
    Ok(())
}

#[test]
fn documents_are_parted_by_marks(rt: HostRuntime) -> Result<(), Fail> {
    let alloc = rt.alloc();
    let mut docs = Vec::new(alloc);
    let none = print_docs(alloc, docs.as_slice())?;
    assert_eq!(rt; none.len(), 0);
    docs.push(alone(alloc, said(alloc, "a")?)?)?;
    docs.push(list(Vec::new(alloc)))?;
    docs.push(under(alloc, plain(alloc, "b", said(alloc, "")?)?)?)?;
    let shown = print_docs(alloc, docs.as_slice())?;
    let wanted = "- \"a\"\n---\n[]\n---\nb: \"\"\n";
    assert!(rt; shown.as_slice() == wanted.as_bytes());
    Ok(())
}

/// The bytes of a map whose one key has so many.
fn size(alloc: Global, key: usize) -> Result<usize, CanonErr> {
    let long = Text::from_string("a".repeat(alloc, key)?);
    let value = under(alloc, Field::of(Key::Plain(long), said(alloc, "")?))?;
    let docs = one(alloc, value)?;
    let shown = print_docs(alloc, docs.as_slice())?;
    Ok(shown.len())
}

#[test]
fn a_text_has_a_mebibyte_at_most(rt: HostRuntime) -> Result<(), Fail> {
    let alloc = rt.alloc();
    assert_eq!(rt; size(alloc, 1_048_571), Ok(1_048_576));
    assert_eq!(rt; size(alloc, 1_048_572), Err(CanonErr::TooLarge));
    Ok(())
}

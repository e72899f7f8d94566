ghost use Rattle.rb_node.specs.Drafts.{spelled, letters, is_bare, excludes_nodes, body_of, before_colon, letters_behind_colon, named_draft, draft_begun, wants_more, joined_with, next_draft, drafts_of, drafts_before, last_draft, is_comma};
ghost use Rattle.std.specs.Option.{option_copied};
ghost use Rattle.std.specs.Prelude.{◌≡◌, ◌≤◌, ◌-◌, ◌++◌, IfOk, OnOk, length, slice_get};

use rb_causes::{Items, Letter, NoMemory, Text};
use std::alloc::Global;

/// A clause whose value is not read yet.
#[derive(Drop)]
pub struct Draft {
    pub exclude: bool,
    pub attr: Text,
    pub value: Items<char>,
    /// The value is the next word.
    pub lacks_value: bool,
}

/// Clauses as written, and the number of the first word that is none, if there is one: nothing is
/// read behind it.
#[derive(Drop)]
pub struct Drafts {
    pub drafts: Items<Draft>,
    pub bad: Option<u32>,
}

/// The clauses of words.
pub fn draft_all(alloc: Global, words: &[Items<Letter>]) -> Result<Drafts, NoMemory>
    requires { length words.now ≤ 1025 }
    ensures { IfOk result (λ d. d ≡ drafts_of words.now) }
{
    let mut drafts = Items::new(alloc);
    let mut pending: Option<Draft> = None;
    for (i, word) in words.iter().enumerate() {
        let Some(draft) = next_draft(alloc, pending, word.as_slice())? else {
            let bad = Some(i as u32 + 1);
            return Ok(Drafts { drafts, bad });
        };
        if draft.wants_more() {
            pending = Some(draft);
        } else {
            drafts.push(draft)?;
            pending = None;
        }
    }
    ended(drafts, pending)
}

/// The clauses with the one that would go on.
fn ended(mut drafts: Items<Draft>, pending: Option<Draft>) -> Result<Drafts, NoMemory>
    ensures { IfOk result (λ d. d ≡ drafts_before drafts (last_draft pending)) }
{
    if let Some(draft) = pending {
        drafts.push(draft)?;
    }
    Ok(Drafts { drafts, bad: None })
}

/// The clause at hand behind a word: the one that is to go on, or a new one.
fn next_draft(
    alloc: Global,
    pending: Option<Draft>,
    word: &[Letter],
) -> Result<Option<Draft>, NoMemory>
    ensures { IfOk result (λ d. d ≡ next_draft pending word.now) }
{
    match pending {
        Some(draft) => Ok(Some(draft.joined_with(word)?)),
        None => draft_begun(alloc, word),
    }
}

impl Draft {
    /// Whether the next word belongs to the value.
    fn wants_more(&self) -> bool
        ensures { result ≡ wants_more self.now }
    {
        self.lacks_value || ends_with_comma(self.value.as_slice())
    }

    /// The draft with the next word joined to its value.
    fn joined_with(self, word: &[Letter]) -> Result<Draft, NoMemory>
        ensures { IfOk result (λ d. d ≡ joined_with self word.now) }
    {
        let Draft {
            exclude,
            attr,
            mut value,
            lacks_value: _,
        } = self;
        put_letters(&mut value, word)?;
        Ok(Draft {
            exclude,
            attr,
            value,
            lacks_value: false,
        })
    }
}

fn ends_with_comma(value: &[char]) -> bool
    ensures { result ≡ is_comma (slice_get value.now (length value.now - 1)) }
{
    match value.last() {
        Some(c) => *c == ',',
        None => false,
    }
}

/// What a word begins, unless it is a lone `!` or has an empty attribute.
fn draft_begun(alloc: Global, word: &[Letter]) -> Result<Option<Draft>, NoMemory>
    ensures { IfOk result (λ d. d ≡ draft_begun word.now) }
{
    let exclude = excludes_nodes(word);
    let body = body_of(word);
    if exclude && body.is_empty() {
        return Ok(None);
    }
    match letters_behind_colon(body) {
        Some(rest) => named_draft(alloc, exclude, attr_of(alloc, body)?, rest),
        None => Ok(Some(Draft {
            exclude,
            attr: Text::of(alloc, "name")?,
            value: letters(alloc, body)?,
            lacks_value: false,
        })),
    }
}

/// The clause with this attribute, unless that is empty.
fn named_draft(
    alloc: Global,
    exclude: bool,
    attr: Text,
    rest: &[Letter],
) -> Result<Option<Draft>, NoMemory>
    ensures { IfOk result (λ d. d ≡ named_draft exclude attr rest.now) }
{
    if attr.as_str().is_empty() {
        return Ok(None);
    }
    let value = letters(alloc, rest)?;
    Ok(Some(Draft {
        exclude,
        attr,
        value,
        lacks_value: rest.is_empty(),
    }))
}

fn is_bare(letter: &Letter, c: char) -> bool
    ensures { result ≡ is_bare c letter.now }
{
    letter.sign == c && !letter.is_quoted
}

/// Whether the word begins with a `!` outside quotes.
fn excludes_nodes(word: &[Letter]) -> bool
    ensures { result ≡ excludes_nodes word.now }
{
    match word.first() {
        Some(letter) => is_bare(letter, '!'),
        None => false,
    }
}

/// The word behind that `!`.
fn body_of(word: &[Letter]) -> &[Letter]
    ensures { result.now ≡ body_of word.now }
{
    match word.split_first() {
        Some((first, rest)) => {
            if is_bare(first, '!') {
                return rest;
            }
            word
        }
        None => word,
    }
}

/// What stands behind the first `:` outside quotes.
fn letters_behind_colon(body: &[Letter]) -> Option<&[Letter]>
    ensures { option_copied result ≡ letters_behind_colon body.now }
{
    for (i, letter) in body.iter().enumerate() {
        if is_bare(letter, ':') {
            return Some(&body[i + 1..]);
        }
    }
    None
}

/// The text before the first `:` outside quotes.
fn attr_of(alloc: Global, body: &[Letter]) -> Result<Text, NoMemory>
    ensures { IfOk result (λ attr. attr ≡ spelled (letters (before_colon body.now))) }
{
    let mut attr = String::new(alloc);
    for letter in body {
        if is_bare(letter, ':') {
            return Ok(Text::from_string(attr));
        }
        attr.push(letter.sign)?;
    }
    Ok(Text::from_string(attr))
}

/// The characters of a word.
fn letters(alloc: Global, word: &[Letter]) -> Result<Items<char>, NoMemory>
    ensures { IfOk result (λ cs. cs ≡ letters word.now) }
{
    let mut value = Items::new(alloc);
    put_letters(&mut value, word)?;
    Ok(value)
}

/// Puts the characters of a word behind a value.
fn put_letters(value: &mut Items<char>, word: &[Letter]) -> Result<(), NoMemory>
    ensures { OnOk result (value.new ≡ value.old ++ letters word.now) }
{
    for letter in word {
        value.push(letter.sign)?;
    }
    Ok(())
}

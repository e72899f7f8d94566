ghost use Rattle.rb_top.specs.Lines.{read_line, line_of_words, by_word, is_comment, one_name, two_names, as_access, as_job, as_step, as_run};
ghost use Rattle.rb_top.specs.Texts.{is_comma};
ghost use Rattle.std.specs.List.{list_all, list_any, slice_split};
ghost use Rattle.std.specs.Prelude.{◌≡◌, ◌||◌, true, false, map, IfOk, MatchOption};
ghost use Rattle.rb_causes.specs.Texts.{is_blank, is_empty};
ghost use Rattle.std.specs.Str.{is_utf8};

use crate::script::{AccessLine, DrillLine, DrillRun};
use crate::words::{blank_parts, comma_parts, is_blank};
use rb_causes::{Items, NoMemory, Text};
use std::alloc::Global;
use std::str;

/// One line of a drill file, read by itself, or None where it is no line.
pub(crate) fn read_line(alloc: Global, bytes: &[u8]) -> Result<Option<DrillLine>, NoMemory>
    ensures { IfOk result (λ line. line ≡ read_line bytes.now) }
{
    let Some(text) = text_of(bytes) else {
        return Ok(None);
    };
    if is_skipped(bytes) {
        return Ok(Some(DrillLine::Skip));
    }
    let words = blank_parts(alloc, text)?;
    line_of_words(alloc, words.as_slice())
}

// The bytes as a text, where they are UTF-8.
pub(crate) fn text_of(bytes: &[u8]) -> Option<&str>
    ensures { MatchOption result (is_utf8 bytes.now ≡ false) (λ text.
        (is_utf8 bytes.now ≡ true) × (text.now ≡ bytes.now)) }
{
    match str::from_utf8(bytes) {
        Ok(text) => Some(text),
        Err(_) => None,
    }
}

// A line of blanks, or a comment.
fn is_skipped(line: &[u8]) -> bool
    ensures { result ≡ (list_all is_blank line.now || is_comment line.now) }
{
    is_all_blank(line) || is_comment(line)
}

fn is_all_blank(line: &[u8]) -> bool
    ensures { result ≡ list_all is_blank line.now }
{
    line.iter().all(|byte| is_blank(*byte))
}

fn is_comment(line: &[u8]) -> bool
    ensures { result ≡ is_comment line.now }
{
    match line {
        [first, ..] => *first == b'#',
        [] => false,
    }
}

fn line_of_words(alloc: Global, words: &[&str]) -> Result<Option<DrillLine>, NoMemory>
    ensures { IfOk result (λ line. line ≡ line_of_words (map (λ w. w.now) words.now)) }
{
    if has_empty(words) {
        return Ok(None);
    }
    match words {
        [] => Ok(None),
        [word, rest @ ..] => by_word(alloc, word, rest),
    }
}

pub(crate) fn has_empty(words: &[&str]) -> bool
    ensures { result ≡ list_any is_empty (map (λ w. w.now) words.now) }
{
    words.iter().any(|word| word.is_empty())
}

fn by_word(alloc: Global, word: &str, rest: &[&str]) -> Result<Option<DrillLine>, NoMemory>
    ensures { IfOk result (λ line. line ≡ by_word word.now (map (λ w. w.now) rest.now)) }
{
    match word {
        "node" => node_line(alloc, rest),
        "allow" => access_line(alloc, false, rest),
        "deny" => access_line(alloc, true, rest),
        "job" => job_line(alloc, rest),
        "step" => step_line(alloc, rest),
        "run" => run_line(alloc, rest),
        _ => Ok(None),
    }
}

fn node_line(alloc: Global, rest: &[&str]) -> Result<Option<DrillLine>, NoMemory>
    ensures { IfOk result (λ line. line ≡ one_name (map (λ w. w.now) rest.now)) }
{
    let [name] = rest else {
        return Ok(None);
    };
    Ok(Some(DrillLine::Node(Text::of(alloc, name)?)))
}

fn access_line(alloc: Global, denies: bool, rest: &[&str]) -> Result<Option<DrillLine>, NoMemory>
    ensures { IfOk result (λ line.
        line ≡ two_names (as_access denies) (map (λ w. w.now) rest.now)) }
{
    let [user, node] = rest else {
        return Ok(None);
    };
    let user = Text::of(alloc, user)?;
    let node = Text::of(alloc, node)?;
    Ok(Some(DrillLine::Access(AccessLine { denies, user, node })))
}

fn job_line(alloc: Global, rest: &[&str]) -> Result<Option<DrillLine>, NoMemory>
    ensures { IfOk result (λ line. line ≡ two_names
        (λ id nodes. as_job id (slice_split is_comma nodes)) (map (λ w. w.now) rest.now)) }
{
    let [id, nodes] = rest else {
        return Ok(None);
    };
    let nodes = comma_parts(alloc, nodes)?;
    if has_empty(nodes.as_slice()) {
        return Ok(None);
    }
    let id = Text::of(alloc, id)?;
    let nodes = texts_of(alloc, nodes.as_slice())?;
    Ok(Some(DrillLine::Job { id, nodes }))
}

fn step_line(alloc: Global, rest: &[&str]) -> Result<Option<DrillLine>, NoMemory>
    ensures { IfOk result (λ line. line ≡ as_step (map (λ w. w.now) rest.now)) }
{
    if rest.is_empty() {
        return Ok(None);
    }
    Ok(Some(DrillLine::Step(texts_of(alloc, rest)?)))
}

fn run_line(alloc: Global, rest: &[&str]) -> Result<Option<DrillLine>, NoMemory>
    ensures { IfOk result (λ line. line ≡ two_names as_run (map (λ w. w.now) rest.now)) }
{
    let [user, job] = rest else {
        return Ok(None);
    };
    let user = Text::of(alloc, user)?;
    let job = Text::of(alloc, job)?;
    Ok(Some(DrillLine::Run(DrillRun { user, job })))
}

fn texts_of(alloc: Global, words: &[&str]) -> Result<Items<Text>, NoMemory>
    ensures { IfOk result (λ texts. texts ≡ map (λ w. w.now) words.now) }
{
    let mut texts = Items::new(alloc);
    for word in words {
        texts.push(Text::of(alloc, word)?)?;
    }
    Ok(texts)
}

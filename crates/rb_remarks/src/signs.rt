//! What a shell would read in a text, and what Rundeck would put in its place.
ghost use Rattle.std.specs.Prelude.{◌≤◌, length};

use rb_causes::{Items, Letter};
use std::str;

/// Whether a word stands in the text.
pub(crate) fn holds(text: &[u8], word: &[u8]) -> bool {
    for (at, _byte) in text.iter().enumerate() {
        if text[at..].starts_with(word) {
            return true;
        }
    }
    false
}

/// The text of a sign that means something to a shell.
fn shell_sign(sign: char) -> Option<&'static str> {
    match sign {
        '|' => Some("|"),
        '&' => Some("&"),
        ';' => Some(";"),
        '<' => Some("<"),
        '>' => Some(">"),
        '(' => Some("("),
        '`' => Some("`"),
        '*' => Some("*"),
        _ => None,
    }
}

/// What a letter means to a shell: nothing, where a quote holds it.
fn sign_of(letter: &Letter) -> Option<&'static str> {
    if letter.is_quoted {
        return None;
    }
    shell_sign(letter.sign)
}

/// The first sign of a word that means something to a shell.
fn sign_in_word(word: &[Letter]) -> Option<&'static str> {
    for letter in word {
        if let Some(sign) = sign_of(letter) {
            return Some(sign);
        }
    }
    None
}

/// The first such sign of these words.
pub(crate) fn sign_in_words(words: &[Items<Letter>]) -> Option<&'static str> {
    for word in words {
        if let Some(sign) = sign_in_word(word.as_slice()) {
            return Some(sign);
        }
    }
    None
}

fn is_name_sign(byte: u8) -> bool {
    byte.is_ascii_alphanumeric() || byte == b'_'
}

/// How many signs of a name stand first.
fn name_length(text: &[u8]) -> usize
    ensures { result ≤ length text.now }
{
    for (at, byte) in text.iter().enumerate() {
        if !is_name_sign(*byte) {
            return at;
        }
    }
    text.len()
}

/// The name that stands first.
fn name_at(text: &[u8]) -> Option<&str> {
    str::from_utf8(&text[..name_length(text)]).ok()
}

/// The first variable that Rundeck sets, with a dollar sign or a brace before it.
pub(crate) fn rundeck_variable(text: &[u8]) -> Option<&str> {
    for (at, _byte) in text.iter().enumerate() {
        if text[at..].starts_with(b"$RD_") || text[at..].starts_with(b"{RD_") {
            return name_at(&text[at + 1..]);
        }
    }
    None
}

/// How long the first line is.
fn line_length(text: &[u8]) -> usize
    ensures { result ≤ length text.now }
{
    for (at, byte) in text.iter().enumerate() {
        if *byte == b'\n' {
            return at;
        }
    }
    text.len()
}

/// The first line of a script, where it names an interpreter other than `sh`.
pub(crate) fn other_interpreter(script: &[u8]) -> Option<&str> {
    let line = &script[..line_length(script)];
    if !line.starts_with(b"#!") || is_sh(line) {
        return None;
    }
    str::from_utf8(line).ok()
}

/// Whether the line names `sh`.
fn is_sh(line: &[u8]) -> bool {
    line.ends_with(b"/sh") || line.ends_with(b"env sh") || holds(line, b"/sh ")
}

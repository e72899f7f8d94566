use rb_causes::Text;
use std::env;
use std::io::ErrorKind;
use std::rt::Env;

/// Why the words of the command line are not to be had.
#[derive(Clone, Copy, Debug, PartialEq, Eq)]
pub enum ProgramWordsErr {
    /// One of them is not UTF-8.
    NotText,
    NoMemory,
}

/// The words of the command line, without the program's own name.
pub fn program_words<R: Env + AllocGlobal>(rt: &R) -> Result<Vec<Text>, ProgramWordsErr> {
    let words = env::args(rt).map_err(|error| match error.kind() {
        ErrorKind::OutOfMemory => ProgramWordsErr::NoMemory,
        _ => ProgramWordsErr::NotText,
    })?;
    let mut texts = Vec::new(rt.alloc());
    for word in words.skip(1) {
        texts
            .push(Text::from_string(word))
            .map_err(|_| ProgramWordsErr::NoMemory)?;
    }
    Ok(texts)
}

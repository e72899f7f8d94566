/// A character of a word, and whether a quote held it.
#[derive(Clone, Copy, Debug, PartialEq, Eq)]
pub struct Letter {
    pub sign: char,
    pub is_quoted: bool,
}

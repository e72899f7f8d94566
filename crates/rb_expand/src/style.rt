ghost use Rattle.rb_expand.specs.Pieces.{opening, closing_of_style, behind_sign, behind_opening};
ghost use Rattle.std.specs.Option.{option_copied};
ghost use Rattle.std.specs.Prelude.{◌≡◌, length};

/// How a name is written in a text.
#[derive(Clone, Copy)]
pub(crate) enum Style {
    /// In a word: `${NAME}`.
    Word,
    /// In a script: `@NAME@`.
    Script,
}

impl Style {
    /// How many signs open a name.
    pub(crate) fn opening_len(self) -> usize
        ensures { result ≡ length (opening self) }
    {
        match self {
            Style::Word => 2,
            Style::Script => 1,
        }
    }

    /// The sign that closes a name.
    pub(crate) fn closing_of_style(self) -> char
        ensures { result ≡ closing_of_style self }
    {
        match self {
            Style::Word => '}',
            Style::Script => '@',
        }
    }

    /// What stands behind the signs that open a name, if they stand at the front of the text.
    pub(crate) fn behind_opening(self, text: &[char]) -> Option<&[char]>
        ensures { option_copied result ≡ behind_opening self text.now }
    {
        match self {
            Style::Word => match behind_sign(text, '$') {
                Some(rest) => behind_sign(rest, '{'),
                None => None,
            },
            Style::Script => behind_sign(text, '@'),
        }
    }
}

fn behind_sign(text: &[char], sign: char) -> Option<&[char]>
    ensures { option_copied result ≡ behind_sign sign text.now }
{
    match text.split_first() {
        Some((first, rest)) => {
            if *first == sign {
                return Some(rest);
            }
            None
        }
        None => None,
    }
}

//! Which form the words have, as far as the top calls differ.
ghost use Rattle.rb_forms.specs.Forms.{is_for_tools, is_session, is_tool};
ghost use Rattle.std.specs.Prelude.{◌≡◌};

use rb_causes::Text;
use rb_session_top::{serving_in, session_in};

/// Whether the words are a session's, on whatever line.
pub(crate) fn is_session(words: &[Text]) -> bool
    ensures { result ≡ is_session words.now }
{
    serving_in(words).is_some() || session_in(words).is_some()
}

/// Whether the first of the words is that of a tool.
pub(crate) fn is_for_tools(words: &[Text]) -> bool
    ensures { result ≡ is_for_tools words.now }
{
    match words {
        [] => false,
        [word, ..] => is_tool(word.as_str()),
    }
}

fn is_tool(word: &str) -> bool
    ensures { result ≡ is_tool word.now }
{
    word == "check" || word == "explain" || word == "next" || word == "demo"
}

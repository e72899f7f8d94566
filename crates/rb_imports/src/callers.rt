//! The caller whom a row names.
ghost use Rattle.rb_causes.specs.Signs.{line_feed};
ghost use Rattle.rb_causes.specs.Texts.{pieces};
ghost use Rattle.rb_log.specs.Rows.{caller_of};
ghost use Rattle.std.specs.Prelude.{◌≡◌, IfOk, map, nat_eq};

use rb_acl::Caller;
use rb_causes::{Items, NoMemory, Text};
use std::alloc::{AllocError, Global};

/// The parts of a text at its line feeds.
fn line_parts<'a>(alloc: Global, text: &'a str) -> Result<Vec<&'a str>, AllocError>
    ensures { IfOk result (λ parts.
        map (λ part. part.now) parts.items ≡ pieces (λ b. nat_eq b line_feed) text.now) }
{
    text.split('\n').collect(alloc)
}

/// Copies of these texts.
fn copies(alloc: Global, texts: &[&str]) -> Result<Items<Text>, NoMemory>
    ensures { IfOk result (λ copy. copy ≡ map (λ text. text.now) texts.now) }
{
    let mut copy = Items::new(alloc);
    for text in texts {
        copy.push(Text::of(alloc, *text)?)?;
    }
    Ok(copy)
}

/// The caller whom the text of a row names: the user and then the groups, each after a line feed.
pub fn caller_of(alloc: Global, who: &str) -> Result<Caller, NoMemory>
    ensures { IfOk result (λ caller.
        caller ≡ caller_of (pieces (λ b. nat_eq b line_feed) who.now)) }
{
    let parts = line_parts(alloc, who)?;
    match parts.as_slice().split_first() {
        None => Ok(Caller {
            user: Text::of(alloc, "")?,
            groups: Items::new(alloc),
        }),
        Some((user, groups)) => Ok(Caller {
            user: Text::of(alloc, *user)?,
            groups: copies(alloc, groups)?,
        }),
    }
}

//! Who asks.
ghost use Rattle.rb_api.specs.Tokens.{caller_by, caller_of};
ghost use Rattle.std.specs.Option.{option_copied};
ghost use Rattle.std.specs.Prelude.{◌≡◌, IfOk};

use crate::token::Token;
use rb_acl::Caller;
use rb_causes::{Items, NoMemory, Text};
use std::alloc::Global;

/// The caller of the first listed token that is this text, whole.
fn caller_of<'t>(tokens: &'t [Token], text: &str) -> Option<&'t Caller>
    ensures { option_copied result ≡ caller_of tokens.now text.now }
{
    let token = tokens.iter().find(|token| token.token.as_str() == text)?;
    Some(&token.caller)
}

/// The caller whom a request's token names, where it has one that is listed.
pub(crate) fn caller_by<'t>(tokens: &'t [Token], token: &Option<Text>) -> Option<&'t Caller>
    ensures { option_copied result ≡ caller_by tokens.now token.now }
{
    match token {
        None => None,
        Some(text) => caller_of(tokens, text.as_str()),
    }
}

/// A copy of these texts.
fn copied_texts(alloc: Global, texts: &[Text]) -> Result<Items<Text>, NoMemory>
    ensures { IfOk result (λ copy. copy ≡ texts.now) }
{
    let mut copy = Items::new(alloc);
    for text in texts {
        copy.push(text.copy(alloc)?)?;
    }
    Ok(copy)
}

/// A copy of a caller.
pub(crate) fn copied_caller(alloc: Global, caller: &Caller) -> Result<Caller, NoMemory>
    ensures { IfOk result (λ copy. copy ≡ caller.now) }
{
    let user = caller.user.copy(alloc)?;
    let groups = copied_texts(alloc, caller.groups.as_slice())?;
    Ok(Caller { user, groups })
}

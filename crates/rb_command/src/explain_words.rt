//! The words of `explain`: who asks, where, and about what.
ghost use Rattle.rb_acl.specs.Applying.{prop_text};
ghost use Rattle.rb_command.specs.ExplainWords.{explain_of, are_explained, has_byte, is_user, are_groups, groups_in_word, caller_of, is_application, project_in, is_context, context_of, is_pair, prop_in_word, key_of, resource_of};
ghost use Rattle.rb_causes.specs.Signs.{comma};
ghost use Rattle.rb_causes.specs.Texts.{pieces, is_tags};
ghost use Rattle.std.specs.List.{list_all};
ghost use Rattle.std.specs.Prelude.{◌≡◌, ◌+◌, Ok, None, IfOk, option_map, map, filter, not, codes, drop, length, nat_eq};

use crate::command::Command;
use rb_acl::{Caller, Context, Resource};
use rb_causes::{Items, NoMemory, Prop, Text};
use rb_node::tags_in;
use std::alloc::{AllocError, Global};

/// What the word of a project begins with.
const PROJECT_MARK: &str = "project:";

/// FILE USER GROUPS CONTEXT TYPE ACTION KEY=TEXT ..
pub(crate) fn read_explain(alloc: Global, words: &[Text]) -> Result<Option<Command>, NoMemory>
    ensures command { IfOk result (λ command. command ≡ explain_of words.now) }
    ensures none { explain_of words.now ≡ None → result ≡ Ok None }
{
    let [file, user, groups, context, type_name, action, pairs @ ..] = words else {
        return Ok(None);
    };
    if !are_explained(user, groups, context, pairs) {
        return Ok(None);
    }
    Ok(Some(Command::Explain {
        file: file.copy(alloc)?,
        caller: caller_of(alloc, user, groups)?,
        context: context_of(alloc, context)?,
        resource: resource_of(alloc, type_name, pairs)?,
        action: action.copy(alloc)?,
    }))
}

fn are_explained(user: &Text, groups: &Text, context: &Text, pairs: &[Text]) -> bool
    ensures { result ≡ are_explained user.now groups.now context.now pairs.now }
{
    is_user(user.as_str())
        && are_groups(groups.as_str())
        && is_context(context.as_str())
        && are_pairs(pairs)
}

fn are_pairs(words: &[Text]) -> bool
    ensures { result ≡ list_all is_pair words.now }
{
    words.iter().all(|word| is_pair(word.as_str()))
}

fn is_user(word: &str) -> bool
    ensures { result ≡ is_user word.now }
{
    !has_byte(word, b'\n') && !has_byte(word, b',')
}

fn has_byte(word: &str, byte: u8) -> bool
    ensures { result ≡ has_byte byte word.now }
{
    word.as_bytes().iter().any(|b| *b == byte)
}

fn are_groups(word: &str) -> bool
    ensures { result ≡ are_groups word.now }
{
    !has_byte(word, b'\n')
}

fn caller_of(alloc: Global, user: &Text, groups: &Text) -> Result<Caller, NoMemory>
    ensures { IfOk result (λ caller. caller ≡ caller_of user.now groups.now) }
{
    Ok(Caller {
        user: user.copy(alloc)?,
        groups: groups_in_word(alloc, groups.as_str())?,
    })
}

// None for `-`, else what stands between the commas.
fn groups_in_word(alloc: Global, word: &str) -> Result<Items<Text>, NoMemory>
    ensures { IfOk result (λ groups. groups ≡ groups_in_word word.now) }
{
    let mut groups = Items::new(alloc);
    if word == "-" {
        return Ok(groups);
    }
    for group in parts_at_commas(alloc, word)?.iter() {
        groups.push(Text::of(alloc, group)?)?;
    }
    Ok(groups)
}

fn parts_at_commas<'a>(alloc: Global, word: &'a str) -> Result<Vec<&'a str>, AllocError>
    ensures { IfOk result (λ parts.
        map (λ part. part.now) parts.items ≡ pieces (λ b. nat_eq b comma) word.now) }
{
    word.split(',').collect(alloc)
}

fn is_application(word: &str) -> bool
    ensures { result ≡ is_application word.now }
{
    word == "application"
}

fn is_context(word: &str) -> bool
    ensures { result ≡ is_context word.now }
{
    is_application(word) || project_in(word).is_some()
}

// The name behind the mark of a project.
fn project_in(word: &str) -> Option<&str>
    ensures { option_map (λ name. name.now) result ≡ project_in word.now }
{
    word.strip_prefix(PROJECT_MARK)
}

fn context_of(alloc: Global, word: &Text) -> Result<Context, NoMemory>
    ensures { IfOk result (λ context. context ≡ context_of word.now) }
{
    if is_application(word.as_str()) {
        return Ok(Context::Application);
    }
    let name = project_in(word.as_str()).unwrap_or("");
    Ok(Context::Project(Text::of(alloc, name)?))
}

// Whether an equals sign stands behind a key.
fn is_pair(word: &str) -> bool
    ensures { result ≡ is_pair word.now }
{
    match word.split_once('=') {
        Some((key, _)) => !key.is_empty(),
        None => false,
    }
}

// What stands before the first equals sign, and what stands behind it.
fn key_and_text(word: &str) -> (&str, &str)
    ensures key { result.0.now ≡ key_of word.now }
    ensures text { result.1.now ≡ drop (length (key_of word.now) + 1) word.now }
{
    match word.split_once('=') {
        Some((key, text)) => (key, text),
        None => (word, ""),
    }
}

fn resource_of(alloc: Global, type_name: &Text, pairs: &[Text]) -> Result<Resource, NoMemory>
    ensures { IfOk result (λ resource.
        resource ≡ resource_of type_name.now (map prop_in_word pairs.now)) }
{
    Ok(Resource {
        type_name: type_name.copy(alloc)?,
        props: props_of(alloc, pairs)?,
        tags: tags_in(alloc, tags_text(pairs))?,
    })
}

// The pairs whose key is not that of the tags.
fn props_of(alloc: Global, pairs: &[Text]) -> Result<Items<Prop>, NoMemory>
    ensures { IfOk result (λ props.
        props ≡ filter (λ p. not (is_tags p.key)) (map prop_in_word pairs.now)) }
{
    let mut props = Items::new(alloc);
    for pair in pairs {
        let (key, text) = key_and_text(pair.as_str());
        if key != "tags" {
            let key = Text::of(alloc, key)?;
            let text = Text::of(alloc, text)?;
            props.push(Prop { key, text })?;
        }
    }
    Ok(props)
}

// The text of the first pair of the tags.
fn tags_text(pairs: &[Text]) -> &str
    ensures { result.now ≡ prop_text (map prop_in_word pairs.now) (codes "tags") }
{
    for pair in pairs {
        let (key, text) = key_and_text(pair.as_str());
        if key == "tags" {
            return text;
        }
    }
    ""
}

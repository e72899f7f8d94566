ghost use Rattle.rb_acl.specs.Keys.{key_under, key_in, index_key};
ghost use Rattle.std.specs.Prelude.{◌≡◌, IfOk};

use crate::policy::{Rule, Test};
use rb_causes::{NoMemory, Text};
use std::alloc::Global;

/// What a rule asks for: one nodename, one name, or neither.
#[derive(Drop)]
pub enum Key {
    Nodename(Text),
    Name(Text),
    Neither,
}

/// What a test asks for that the property has this text.
fn key_under(alloc: Global, key: &str, text: &Text) -> Result<Key, NoMemory>
    ensures { IfOk result (λ k. k ≡ key_under key.now text.now) }
{
    if key == "nodename" {
        return Ok(Key::Nodename(text.copy(alloc)?));
    }
    if key == "name" {
        return Ok(Key::Name(text.copy(alloc)?));
    }
    Ok(Key::Neither)
}

/// What a test asks for. One that lists several texts, or none, tells nothing.
fn key_in(alloc: Global, test: &Test) -> Result<Key, NoMemory>
    ensures { IfOk result (λ k. k ≡ key_in test.now) }
{
    match test {
        Test::Match { .. } => Ok(Key::Neither),
        Test::Equals { key, texts } => match texts.as_slice() {
            [text] => key_under(alloc, key.as_str(), text),
            _ => Ok(Key::Neither),
        },
        Test::Contains { .. } => Ok(Key::Neither),
        Test::Subset { .. } => Ok(Key::Neither),
    }
}

/// The first that one of its tests asks for.
pub fn index_key(alloc: Global, rule: &Rule) -> Result<Key, NoMemory>
    ensures { IfOk result (λ k. k ≡ index_key rule.now.tests) }
{
    for test in rule.tests.as_slice() {
        match key_in(alloc, test)? {
            Key::Nodename(text) => return Ok(Key::Nodename(text)),
            Key::Name(text) => return Ok(Key::Name(text)),
            Key::Neither => {}
        }
    }
    Ok(Key::Neither)
}

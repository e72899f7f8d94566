//! The tests of a resource's properties.
ghost use Rattle.rb_acl.specs.Applying.{prop_text, property_text, property_items, test_holds};
ghost use Rattle.rb_acl.specs.Plain.{is_plain_test};
ghost use Rattle.rb_causes.specs.Texts.{has_text, is_tags};
ghost use Rattle.rb_text.specs.Matching.{matches_whole};
ghost use Rattle.std.specs.List.{list_all};
ghost use Rattle.std.specs.Prelude.{◌≡◌, [], true, bytes_eq, IfOk, IsOk};

use crate::joining::{is_joined, joined};
use crate::parts::{are_parts_among, is_among, is_part};
use crate::policy::{Resource, Test};
use rb_causes::{NoMemory, Prop, Text};
use rb_text::Pattern;
use std::alloc::Global;

/// The text under the key; a missing one is empty.
pub fn prop_text<'a>(props: &'a [Prop], key: &str) -> &'a str
    ensures { result.now ≡ prop_text props.now key.now }
{
    for prop in props {
        if prop.key.as_str() == key {
            return prop.text.as_str();
        }
    }
    ""
}

/// The key under which the tags stand.
pub fn is_tags(key: &str) -> bool
    ensures { result ≡ is_tags key.now }
{
    key == "tags"
}

impl Test {
    /// Whether the test holds for the resource.
    pub fn holds(&self, alloc: Global, resource: &Resource) -> Result<bool, NoMemory>
        ensures found { IfOk result (λ yes. yes ≡ test_holds resource.now self.now) }
        ensures memory { is_plain_test self.now ≡ true → IsOk result }
    {
        match self {
            Test::Match { key, patterns } => {
                is_matched(alloc, resource, key.as_str(), patterns.as_slice())
            }
            Test::Equals { key, texts } => {
                Ok(equals_each(resource, key.as_str(), texts.as_slice()))
            }
            Test::Contains { key, texts } => {
                Ok(has_items(resource, key.as_str(), texts.as_slice()))
            }
            Test::Subset { key, texts } => {
                Ok(are_items_among(resource, key.as_str(), texts.as_slice()))
            }
        }
    }
}

/// Whether each pattern matches the whole text of the property.
fn is_matched(
    alloc: Global,
    resource: &Resource,
    key: &str,
    patterns: &[Pattern],
) -> Result<bool, NoMemory>
    ensures found { IfOk result (λ yes. yes ≡ list_all
        (λ pattern. matches_whole pattern (property_text resource.now key.now)) patterns.now) }
    ensures memory { patterns.now ≡ [] → IsOk result }
{
    if patterns.is_empty() {
        return Ok(true);
    }
    if is_tags(key) {
        let text = joined(alloc, resource.tags.as_slice())?;
        return all_match(alloc, patterns, text.as_str());
    }
    all_match(alloc, patterns, prop_text(resource.props.as_slice(), key))
}

/// Whether each pattern matches the whole text.
fn all_match(alloc: Global, patterns: &[Pattern], text: &str) -> Result<bool, NoMemory>
    ensures { IfOk result (λ yes.
        yes ≡ list_all (λ pattern. matches_whole pattern text.now) patterns.now) }
{
    for pattern in patterns {
        if !matches_whole(alloc, pattern, text)? {
            return Ok(false);
        }
    }
    Ok(true)
}

fn matches_whole(alloc: Global, pattern: &Pattern, text: &str) -> Result<bool, NoMemory>
    ensures { IfOk result (λ yes. yes ≡ matches_whole pattern.now text.now) }
{
    match pattern.whole(alloc, text) {
        Ok(yes) => Ok(yes),
        Err(_) => Err(NoMemory),
    }
}

/// Whether the text of the property is each of these.
fn equals_each(resource: &Resource, key: &str, texts: &[Text]) -> bool
    ensures { result ≡ list_all
        (λ text. bytes_eq (property_text resource.now key.now) text) texts.now }
{
    texts
        .iter()
        .all(|text| equals(resource, key, text.as_str()))
}

/// Whether this is the text of the property.
fn equals(resource: &Resource, key: &str, text: &str) -> bool
    ensures { result ≡ bytes_eq (property_text resource.now key.now) text.now }
{
    if is_tags(key) {
        is_joined(resource.tags.as_slice(), text)
    } else {
        prop_text(resource.props.as_slice(), key) == text
    }
}

/// Whether each of these is among the items of the property.
fn has_items(resource: &Resource, key: &str, texts: &[Text]) -> bool
    ensures { result ≡ list_all (has_text (property_items resource.now key.now)) texts.now }
{
    texts
        .iter()
        .all(|text| has_item(resource, key, text.as_str()))
}

/// Whether this is one of the items of the property.
fn has_item(resource: &Resource, key: &str, text: &str) -> bool
    ensures { result ≡ has_text (property_items resource.now key.now) text.now }
{
    if is_tags(key) {
        is_among(resource.tags.as_slice(), text)
    } else {
        is_part(prop_text(resource.props.as_slice(), key), text)
    }
}

/// Whether each item of the property is among these.
fn are_items_among(resource: &Resource, key: &str, texts: &[Text]) -> bool
    ensures { result ≡ list_all (has_text texts.now) (property_items resource.now key.now) }
{
    if is_tags(key) {
        resource
            .tags
            .as_slice()
            .iter()
            .all(|tag| is_among(texts, tag.as_str()))
    } else {
        are_parts_among(prop_text(resource.props.as_slice(), key), texts)
    }
}

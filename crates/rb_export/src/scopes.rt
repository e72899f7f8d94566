//! Where a policy holds, and whom it speaks of.
ghost use Rattle.rb_canon.specs.Values.{map_of};
ghost use Rattle.rb_canon.specs.Views.{canon_tree, field_view};
ghost use Rattle.rb_export.specs.Groups.{count_of_name, groups_by};
ghost use Rattle.rb_export.specs.Policies.{scope_entry, by_key, by_text, by_entry, by_entries, texts_value};
ghost use Rattle.std.specs.Prelude.{◌≡◌, ◌<◌, [], ◌∷◌, length, map, IfOk, IfSome, MatchOption};

use crate::values::{text_value, texts_value, under};
use rb_acl::{ByRule, Scope};
use rb_canon::{Canon, Field, list, map};
use rb_causes::NoMemory;
use std::alloc::Global;

fn scope_field(alloc: Global, scope: &Scope) -> Result<Field, NoMemory>
    ensures { IfOk result (λ field. field_view field ≡ scope_entry scope.now) }
{
    match scope {
        Scope::Project(value) => under(alloc, "project", text_value(alloc, value.text())?),
        Scope::Application(value) => under(alloc, "application", text_value(alloc, value.text())?),
    }
}

/// Where a policy holds.
pub(crate) fn scope_value(alloc: Global, scope: &Scope) -> Result<Canon, NoMemory>
    ensures { IfOk result (λ value. canon_tree value ≡ map_of (scope_entry scope.now ∷ [])) }
{
    let mut fields = Vec::new(alloc);
    fields.push(scope_field(alloc, scope)?)?;
    Ok(map(fields))
}

fn by_key(by: &ByRule) -> &'static str
    ensures { result.now ≡ by_key by.now }
{
    match by {
        ByRule::User(_) => "username",
        ByRule::Group(_) => "group",
    }
}

fn by_text(by: &ByRule) -> &str
    ensures { result.now ≡ by_text by.now }
{
    match by {
        ByRule::User(value) => value.text(),
        ByRule::Group(value) => value.text(),
    }
}

/// How many at the front stand under this key.
fn count_of_key(by: &[ByRule], key: &str) -> usize
    ensures { result ≡ count_of_name by_key key.now by.now }
{
    let mut count = 0;
    for b in by {
        if by_key(b) != key {
            return count;
        }
        count += 1;
    }
    count
}

/// Those at the front that stand under one key, and those behind them.
fn first_group(by: &[ByRule]) -> Option<(&'static str, &[ByRule], &[ByRule])>
    ensures parts { MatchOption result (by.now ≡ []) (λ parts. groups_by by_key by.now
        ≡ (parts.0.now, parts.1.now) ∷ groups_by by_key parts.2.now) }
    ensures shorter { IfSome result (λ parts. length parts.2.now < length by.now) }
{
    if by.is_empty() {
        return None;
    }
    let key = by_key(&by[0]);
    let (group, behind) = by.split_at(count_of_key(by, key));
    Some((key, group, behind))
}

fn names_value(alloc: Global, by: &[ByRule]) -> Result<Canon, NoMemory>
    ensures { IfOk result (λ value. canon_tree value ≡ texts_value (map by_text by.now)) }
{
    let mut items = Vec::new(alloc);
    for b in by {
        items.push(text_value(alloc, by_text(b))?)?;
    }
    Ok(list(items))
}

fn names_field(alloc: Global, key: &str, by: &[ByRule]) -> Result<Field, NoMemory>
    ensures { IfOk result (λ field. field_view field ≡ by_entry (key.now, by.now)) }
{
    under(alloc, key, names_value(alloc, by)?)
}

/// A map that names nobody.
fn nobody(alloc: Global) -> Result<Vec<Field>, NoMemory>
    ensures { IfOk result (λ fields. map field_view fields.items ≡ by_entries []) }
{
    let mut fields = Vec::new(alloc);
    fields.push(under(alloc, "username", list(Vec::new(alloc)))?)?;
    Ok(fields)
}

fn somebody(alloc: Global, by: &[ByRule]) -> Result<Vec<Field>, NoMemory>
    ensures { IfOk result (λ fields.
        map field_view fields.items ≡ map by_entry (groups_by by_key by.now)) }
{
    let mut fields = Vec::new(alloc);
    let mut rest = by;
    while let Some((key, group, behind)) = first_group(rest) {
        fields.push(names_field(alloc, key, group)?)?;
        rest = behind;
    }
    Ok(fields)
}

fn by_fields(alloc: Global, by: &[ByRule]) -> Result<Vec<Field>, NoMemory>
    ensures { IfOk result (λ fields. map field_view fields.items ≡ by_entries by.now) }
{
    match by.first() {
        None => nobody(alloc),
        Some(_) => somebody(alloc, by),
    }
}

/// Whom a policy speaks of.
pub(crate) fn by_value(alloc: Global, by: &[ByRule]) -> Result<Canon, NoMemory>
    ensures { IfOk result (λ value. canon_tree value ≡ map_of (by_entries by.now)) }
{
    Ok(map(by_fields(alloc, by)?))
}

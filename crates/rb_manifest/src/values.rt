//! What a manifest without a flaw says.
ghost use Rattle.rb_manifest.specs.Manifests.{manifest_in, manifest_project, manifest_token, manifest_zone, owner_in, text_or_else, texts_under};
ghost use Rattle.rb_causes.specs.Numbers.{decimal_of};
ghost use Rattle.rb_values.specs.Values.{items_at, scalar_or_empty, text_at};
ghost use Rattle.rb_yaml.specs.Tree.{pair_tree, yaml_tree};
ghost use Rattle.std.specs.Prelude.{◌≡◌, IfOk, codes, map, option_and_then};

use crate::manifest::{Manifest, ProjectDocs};
use rb_acl::Caller;
use rb_api::Token;
use rb_causes::{Items, NoMemory, Prop, Text, decimal};
use rb_values::{items_at, map_entries, text_at, text_in};
use rb_yaml::{Pair, Yaml};
use std::alloc::Global;

/// The text that the value is, or the empty one.
fn scalar_or_empty(alloc: Global, value: &Yaml) -> Result<Text, NoMemory>
    ensures { IfOk result (λ text. text ≡ scalar_or_empty (yaml_tree value.now)) }
{
    match text_in(value) {
        None => Text::of(alloc, ""),
        Some(text) => text.copy(alloc),
    }
}

/// The texts that the items are.
pub(crate) fn item_texts(alloc: Global, items: &[Yaml]) -> Result<Items<Text>, NoMemory>
    ensures { IfOk result (λ texts. texts ≡ map scalar_or_empty (map yaml_tree items.now)) }
{
    let mut texts = Items::new(alloc);
    for item in items {
        texts.push(scalar_or_empty(alloc, item)?)?;
    }
    Ok(texts)
}

/// The texts of the sequence under a key, or none.
fn texts_under(alloc: Global, entries: &[Pair], key: &str) -> Result<Items<Text>, NoMemory>
    ensures { IfOk result (λ texts. texts ≡ texts_under (map pair_tree entries.now) key.now) }
{
    item_texts(alloc, items_at(entries, key))
}

/// The text under a key, or this one where the key is not there.
fn text_or_else(alloc: Global, other: &str, entries: &[Pair], key: &str) -> Result<Text, NoMemory>
    ensures { IfOk result (λ text.
        text ≡ text_or_else other.now (map pair_tree entries.now) key.now) }
{
    match text_at(entries, key) {
        None => Text::of(alloc, other),
        Some(text) => text.copy(alloc),
    }
}

/// A copy of the text under a key, if one is there.
fn text_under(alloc: Global, entries: &[Pair], key: &str) -> Result<Option<Text>, NoMemory>
    ensures { IfOk result (λ text. text ≡ text_at (map pair_tree entries.now) key.now) }
{
    match text_at(entries, key) {
        None => Ok(None),
        Some(text) => Ok(Some(text.copy(alloc)?)),
    }
}

/// Whoever imports the documents.
fn owner_in(alloc: Global, entries: &[Pair]) -> Result<Caller, NoMemory>
    ensures { IfOk result (λ owner. owner ≡ owner_in (map pair_tree entries.now)) }
{
    Ok(Caller {
        user: text_or_else(alloc, "admin", entries, "owner")?,
        groups: texts_under(alloc, entries, "owner-groups")?,
    })
}

fn manifest_token(alloc: Global, item: &Yaml) -> Result<Token, NoMemory>
    ensures { IfOk result (λ token. token ≡ manifest_token (yaml_tree item.now)) }
{
    let entries = map_entries(item);
    Ok(Token {
        token: text_or_else(alloc, "", entries, "token")?,
        caller: Caller {
            user: text_or_else(alloc, "", entries, "user")?,
            groups: texts_under(alloc, entries, "groups")?,
        },
    })
}

fn manifest_tokens(alloc: Global, items: &[Yaml]) -> Result<Items<Token>, NoMemory>
    ensures { IfOk result (λ tokens. tokens ≡ map manifest_token (map yaml_tree items.now)) }
{
    let mut tokens = Items::new(alloc);
    for item in items {
        tokens.push(manifest_token(alloc, item)?)?;
    }
    Ok(tokens)
}

fn manifest_zone(alloc: Global, item: &Yaml) -> Result<Prop, NoMemory>
    ensures { IfOk result (λ zone. zone ≡ manifest_zone (yaml_tree item.now)) }
{
    let entries = map_entries(item);
    Ok(Prop {
        key: text_or_else(alloc, "", entries, "name")?,
        text: text_or_else(alloc, "", entries, "rule")?,
    })
}

fn manifest_zones(alloc: Global, items: &[Yaml]) -> Result<Items<Prop>, NoMemory>
    ensures { IfOk result (λ zones. zones ≡ map manifest_zone (map yaml_tree items.now)) }
{
    let mut zones = Items::new(alloc);
    for item in items {
        zones.push(manifest_zone(alloc, item)?)?;
    }
    Ok(zones)
}

fn manifest_project(alloc: Global, item: &Yaml) -> Result<ProjectDocs, NoMemory>
    ensures { IfOk result (λ project. project ≡ manifest_project (yaml_tree item.now)) }
{
    let entries = map_entries(item);
    Ok(ProjectDocs {
        name: text_or_else(alloc, "", entries, "name")?,
        nodes: text_under(alloc, entries, "nodes")?,
        jobs: texts_under(alloc, entries, "jobs")?,
    })
}

fn manifest_projects(alloc: Global, items: &[Yaml]) -> Result<Items<ProjectDocs>, NoMemory>
    ensures { IfOk result (λ projects.
        projects ≡ map manifest_project (map yaml_tree items.now)) }
{
    let mut projects = Items::new(alloc);
    for item in items {
        projects.push(manifest_project(alloc, item)?)?;
    }
    Ok(projects)
}

fn inline_in(entries: &[Pair]) -> Option<u64>
    ensures { result ≡ option_and_then decimal_of
        (text_at (map pair_tree entries.now) (codes "inline")) }
{
    match text_at(entries, "inline") {
        None => None,
        Some(text) => decimal(text.as_str()),
    }
}

/// What the entries of a manifest without a flaw say.
pub(crate) fn manifest_in(alloc: Global, entries: &[Pair]) -> Result<Manifest, NoMemory>
    ensures { IfOk result (λ manifest. manifest ≡ manifest_in (map pair_tree entries.now)) }
{
    Ok(Manifest {
        owner: owner_in(alloc, entries)?,
        tokens: manifest_tokens(alloc, items_at(entries, "tokens"))?,
        zones: manifest_zones(alloc, items_at(entries, "zones"))?,
        policies: texts_under(alloc, entries, "policies")?,
        projects: manifest_projects(alloc, items_at(entries, "projects"))?,
        inline: inline_in(entries),
    })
}

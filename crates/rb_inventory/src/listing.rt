//! What documents list as nodes.
ghost use Rattle.rb_inventory.specs.Listings.{entry_listing, listings_by, listings_of};
ghost use Rattle.rb_inventory.specs.ListingsView.{listing_view};
ghost use Rattle.rb_values.specs.Values.{entries_in};
ghost use Rattle.rb_yaml.specs.Tree.{yaml_tree, pair_tree, docs_tree};
ghost use Rattle.std.specs.Prelude.{◌≡◌, ◌++◌, map, IfOk, OnOk};

use rb_causes::NoMemory;
use rb_values::{entries_in, key_of, value_of};
use rb_yaml::{Doc, Pair, Yaml};
use std::alloc::Global;

/// A node by its name and its value. A document that is no map lists one node without a value,
/// under the empty name.
#[derive(Drop)]
pub(crate) struct Listing<'a> {
    pub name: &'a str,
    pub value: Option<&'a Yaml>,
}

/// Adds the entries of a map.
fn push_entries<'a>(listings: &mut Vec<Listing<'a>>, entries: &'a [Pair]) -> Result<(), NoMemory>
    ensures { OnOk result (map listing_view listings.new.items ≡
        map listing_view listings.old.items ++ map entry_listing (map pair_tree entries.now)) }
{
    for entry in entries {
        listings.push(Listing {
            name: key_of(entry),
            value: Some(value_of(entry)),
        })?;
    }
    Ok(())
}

/// Adds what a document lists.
fn push_listings<'a>(listings: &mut Vec<Listing<'a>>, root: &'a Yaml) -> Result<(), NoMemory>
    ensures { OnOk result (map listing_view listings.new.items ≡
        map listing_view listings.old.items ++ listings_by (entries_in (yaml_tree root.now))) }
{
    match entries_in(root) {
        None => {
            listings.push(Listing {
                name: "",
                value: None,
            })?;
            Ok(())
        }
        Some(entries) => push_entries(listings, entries),
    }
}

/// What the documents list, in their order.
pub(crate) fn listings_of<'a>(alloc: Global, docs: &'a [Doc]) -> Result<Vec<Listing<'a>>, NoMemory>
    ensures { IfOk result (λ v. map listing_view v.items ≡ listings_of (docs_tree docs.now)) }
{
    let mut listings = Vec::new(alloc);
    for doc in docs {
        push_listings(&mut listings, &doc.root)?;
    }
    Ok(listings)
}

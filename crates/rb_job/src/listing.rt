//! What documents list as jobs.
ghost use Rattle.rb_job.specs.Listings.{items_listed, listings_in, listings_of};
ghost use Rattle.rb_job.specs.ListingsView.{listing_view};
ghost use Rattle.rb_yaml.specs.Tree.{yaml_tree, docs_tree};
ghost use Rattle.std.specs.Prelude.{◌≡◌, ◌++◌, ◌∷◌, [], None, map, IfOk, OnOk};

use rb_causes::NoMemory;
use rb_yaml::{Doc, Yaml};
use std::alloc::Global;

/// An item of a document with its place in it, from 0. A document that is no sequence lists one
/// without a value.
#[derive(Drop)]
pub(crate) struct Listing<'a> {
    pub place: usize,
    pub value: Option<&'a Yaml>,
}

/// Adds the items of a sequence.
fn push_items<'a>(listings: &mut Vec<Listing<'a>>, items: &'a [Yaml]) -> Result<(), NoMemory>
    ensures { OnOk result (map listing_view listings.new.items ≡
        map listing_view listings.old.items ++ items_listed 0 (map yaml_tree items.now)) }
{
    for (place, item) in items.iter().enumerate() {
        listings.push(Listing {
            place,
            value: Some(item),
        })?;
    }
    Ok(())
}

fn push_none(listings: &mut Vec<Listing>) -> Result<(), NoMemory>
    ensures { OnOk result (map listing_view listings.new.items ≡
        map listing_view listings.old.items ++ (0, None) ∷ []) }
{
    listings.push(Listing {
        place: 0,
        value: None,
    })?;
    Ok(())
}

/// Adds what a document lists.
fn push_listings<'a>(listings: &mut Vec<Listing<'a>>, root: &'a Yaml) -> Result<(), NoMemory>
    ensures { OnOk result (map listing_view listings.new.items ≡
        map listing_view listings.old.items ++ listings_in (yaml_tree root.now)) }
{
    match root {
        Yaml::Scalar { line: _, text: _ } => push_none(listings),
        Yaml::Seq { line: _, items } => push_items(listings, items.as_slice()),
        Yaml::Map {
            line: _,
            entries: _,
        } => push_none(listings),
    }
}

/// What the documents list, in their order.
pub(crate) fn listings_of<'a>(alloc: Global, docs: &'a [Doc]) -> Result<Vec<Listing<'a>>, NoMemory>
    ensures { IfOk result (λ v. map listing_view v.items ≡ listings_of (docs_tree docs.now)) }
{
    let mut listings = Vec::new(alloc);
    for doc in docs {
        push_listings(&mut listings, &doc.root)?;
    }
    Ok(listings)
}

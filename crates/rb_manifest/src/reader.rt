ghost use Rattle.rb_manifest.specs.Manifests.{GivesManifest, manifest_in, root_entries};
ghost use Rattle.rb_yaml.specs.Tree.{docs_tree};
ghost use Rattle.std.specs.Prelude.{◌≡◌, IfOk};

use crate::flaws::manifest_flaw;
use crate::manifest::Manifest;
use crate::manifest_err::ManifestErr;
use crate::values::manifest_in;
use rb_causes::NoMemory;
use rb_values::map_entries;
use rb_yaml::Doc;
use std::alloc::Global;

/// The manifest of documents, or its first fault.
pub fn read_manifest(alloc: Global, docs: &[Doc]) -> Result<Manifest, ManifestErr>
    ensures { GivesManifest (docs_tree docs.now) result }
{
    match manifest_flaw(alloc, docs)? {
        None => Ok(read_flawless(alloc, docs)?),
        Some(fault) => Err(ManifestErr::Fault(fault)),
    }
}

/// What the entries of the one map say, or those of an empty manifest.
fn read_flawless(alloc: Global, docs: &[Doc]) -> Result<Manifest, NoMemory>
    ensures { IfOk result (λ manifest.
        manifest ≡ manifest_in (root_entries (docs_tree docs.now))) }
{
    match docs {
        [] => manifest_in(alloc, &[]),
        [doc, ..] => manifest_in(alloc, map_entries(&doc.root)),
    }
}

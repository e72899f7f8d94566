//! The files of a session: the manifest's own, and those that it names.
ghost use Rattle.rb_causes.specs.Outside.{Fetched};
ghost use Rattle.rb_log.specs.Rows.{is_clean_caller};
ghost use Rattle.rb_manifest.specs.Manifests.{manifest_of};
ghost use Rattle.rb_session.specs.Documents.{AreDocuments, IsDocument, IsHad, file_at};
ghost use Rattle.rb_session.specs.Fetching.{AllHad, HoldsManifest, IsDocsUnread, IsManifestNotHad, IsManifestUnread, IsNotHad, IsPlaceNotHad, IsPlaceUnread, IsReadUnread, IsShelfUnread, StopsIn, sight};
ghost use Rattle.rb_yaml.specs.Documents.{docs_of};
ghost use Rattle.rb_yaml.specs.Tree.{docs_tree};
ghost use Rattle.std.specs.List.{list_all};
ghost use Rattle.std.specs.Option.{option_copied};
ghost use Rattle.std.specs.Prelude.{◌≡◌, ◌≤◌, IfErr, IfOk, Ok, OnOk, Some, true};

use crate::place::{Document, Place};
use crate::places::{file_at, name_of, places_of};
use crate::unread::Unread;
use crate::unread_telling::tell_unread;
use crate::whole_texts::whole_text;
use rb_causes::{Items, Shelf, Sink, Text, Trouble};
use rb_manifest::laws::callers_are_clean;
use rb_manifest::{Manifest, ManifestErr, read_manifest};
use rb_yaml::{Doc, YamlErr, read_docs};
use std::alloc::Global;

/// The manifest of the file of this name, and the documents that it names, with their texts. Where
/// a file is not had, why is told, and the status is answered.
pub fn fetch_all<F: Shelf, O: Sink>(
    alloc: Global,
    name: &str,
    shelf: &mut F,
    out: &mut O,
) -> Result<(Manifest, Vec<Document>), u8>
    ensures had { IfOk result (λ had. AllHad (F.files shelf.old) name.now had.0 had.1.items) }
    ensures owner { IfOk result (λ had. is_clean_caller had.0.owner ≡ true) }
    ensures tokens { IfOk result (λ had.
        list_all (λ t. is_clean_caller t.caller) had.0.tokens ≡ true) }
    ensures silent { OnOk result (O.shown out.new ≡ O.shown out.old) }
    ensures told { IfErr result (λ status. IsNotHad
        (sight (F.files shelf.old) (F.faults shelf.old))
        (sight (F.files shelf.new) (F.faults shelf.new))
        name.now status (O.shown out.old) (O.shown out.new)) }
    ensures files { F.files shelf.new ≡ F.files shelf.old }
    ensures faults { F.faults shelf.old ≤ F.faults shelf.new }
    ensures steady { OnOk result (F.faults shelf.new ≡ F.faults shelf.old) }
{
    let manifest = fetch_manifest(alloc, name, shelf, out)?;
    let Ok(places) = places_of(alloc, name, &manifest) else {
        return Err(tell_unread(out, name, &Unread::NoMemory));
    };
    let documents = fetch_documents(alloc, places, shelf, out)?;
    Ok((manifest, documents))
}

fn fetch_manifest<F: Shelf, O: Sink>(
    alloc: Global,
    name: &str,
    shelf: &mut F,
    out: &mut O,
) -> Result<Manifest, u8>
    ensures had { IfOk result (λ m. HoldsManifest (F.files shelf.old) name.now m) }
    ensures owner { IfOk result (λ m. is_clean_caller m.owner ≡ true) }
    ensures tokens { IfOk result (λ m.
        list_all (λ t. is_clean_caller t.caller) m.tokens ≡ true) }
    ensures silent { OnOk result (O.shown out.new ≡ O.shown out.old) }
    ensures told { IfErr result (λ status. IsManifestNotHad
        (sight (F.files shelf.old) (F.faults shelf.old))
        (sight (F.files shelf.new) (F.faults shelf.new))
        name.now status (O.shown out.old) (O.shown out.new)) }
    ensures files { F.files shelf.new ≡ F.files shelf.old }
    ensures faults { F.faults shelf.old ≤ F.faults shelf.new }
    ensures steady { OnOk result (F.faults shelf.new ≡ F.faults shelf.old) }
{
    match manifest_at(alloc, name, shelf) {
        Ok(manifest) => Ok(manifest),
        Err(unread) => Err(tell_unread(out, name, &unread)),
    }
}

/// The manifest that the file of this name holds.
fn manifest_at<F: Shelf>(alloc: Global, name: &str, shelf: &mut F) -> Result<Manifest, Unread>
    ensures had { IfOk result (λ m. HoldsManifest (F.files shelf.old) name.now m) }
    ensures owner { IfOk result (λ m. is_clean_caller m.owner ≡ true) }
    ensures tokens { IfOk result (λ m.
        list_all (λ t. is_clean_caller t.caller) m.tokens ≡ true) }
    ensures unread { IfErr result (λ u. IsManifestUnread
        (sight (F.files shelf.old) (F.faults shelf.old))
        (sight (F.files shelf.new) (F.faults shelf.new)) name.now u) }
    ensures files { F.files shelf.new ≡ F.files shelf.old }
    ensures faults { F.faults shelf.old ≤ F.faults shelf.new }
    ensures steady { OnOk result (F.faults shelf.new ≡ F.faults shelf.old) }
{
    let bytes = fetch(alloc, name, shelf)?;
    let docs = docs_in(alloc, bytes.as_slice())?;
    manifest_in(alloc, docs.as_slice())
}

/// The bytes of the file of this name, had without a fault.
fn fetch<F: Shelf>(alloc: Global, name: &str, shelf: &mut F) -> Result<Vec<u8>, Unread>
    ensures bytes { IfOk result (λ bytes.
        Fetched (F.files shelf.old) name.now (Some bytes.items)) }
    ensures unread { IfErr result (λ u. IsShelfUnread
        (sight (F.files shelf.old) (F.faults shelf.old))
        (sight (F.files shelf.new) (F.faults shelf.new)) name.now u) }
    ensures files { F.files shelf.new ≡ F.files shelf.old }
    ensures faults { F.faults shelf.old ≤ F.faults shelf.new }
    ensures steady { OnOk result (F.faults shelf.new ≡ F.faults shelf.old) }
{
    match shelf.fetch(alloc, name) {
        Ok(Some(bytes)) => Ok(bytes),
        Ok(None) => Err(Unread::Absent),
        Err(Trouble::Failed) => Err(Unread::ShelfFailed),
        Err(Trouble::NoMemory) => Err(Unread::NoMemory),
    }
}

fn docs_in(alloc: Global, bytes: &[u8]) -> Result<Vec<Doc>, Unread>
    ensures docs { IfOk result (λ docs. docs_of bytes.now ≡ Ok (docs_tree docs.items)) }
    ensures unread { IfErr result (λ u. IsDocsUnread bytes.now u) }
{
    match read_docs(alloc, bytes) {
        Ok(docs) => Ok(docs),
        Err(YamlErr::Fault(fault)) => Err(Unread::NotYaml(fault)),
        Err(YamlErr::NoMemory) => Err(Unread::NoMemory),
    }
}

fn manifest_in(alloc: Global, docs: &[Doc]) -> Result<Manifest, Unread>
    ensures read { IfOk result (λ m. manifest_of (docs_tree docs.now) ≡ Ok m) }
    ensures owner { IfOk result (λ m. is_clean_caller m.owner ≡ true) }
    ensures tokens { IfOk result (λ m.
        list_all (λ t. is_clean_caller t.caller) m.tokens ≡ true) }
    ensures unread { IfErr result (λ u. IsReadUnread (docs_tree docs.now) u) }
{
    callers_are_clean();
    match read_manifest(alloc, docs) {
        Ok(manifest) => Ok(manifest),
        Err(ManifestErr::Fault(fault)) => Err(Unread::NotManifest(fault)),
        Err(ManifestErr::NoMemory) => Err(Unread::NoMemory),
    }
}

/// The documents at these places, in order.
fn fetch_documents<F: Shelf, O: Sink>(
    alloc: Global,
    places: Items<Place>,
    shelf: &mut F,
    out: &mut O,
) -> Result<Vec<Document>, u8>
    ensures had { IfOk result (λ had. AreDocuments (F.files shelf.old) places had.items) }
    ensures silent { OnOk result (O.shown out.new ≡ O.shown out.old) }
    ensures told { IfErr result (λ status. StopsIn
        (sight (F.files shelf.old) (F.faults shelf.old))
        (sight (F.files shelf.new) (F.faults shelf.new))
        places status (O.shown out.old) (O.shown out.new)) }
    ensures files { F.files shelf.new ≡ F.files shelf.old }
    ensures faults { F.faults shelf.old ≤ F.faults shelf.new }
    ensures steady { OnOk result (F.faults shelf.new ≡ F.faults shelf.old) }
{
    let mut documents = Vec::new(alloc);
    for place in places.into_vec() {
        let document = fetch_document(alloc, place, shelf, out)?;
        if documents.push(document).is_err() {
            return Err(tell_unread(out, "", &Unread::NoMemory));
        }
    }
    Ok(documents)
}

fn fetch_document<F: Shelf, O: Sink>(
    alloc: Global,
    place: Place,
    shelf: &mut F,
    out: &mut O,
) -> Result<Document, u8>
    ensures place { IfOk result (λ had. had.place ≡ place) }
    ensures had { IfOk result (λ had. IsHad (F.files shelf.old) had) }
    ensures silent { OnOk result (O.shown out.new ≡ O.shown out.old) }
    ensures told { IfErr result (λ status. IsPlaceNotHad
        (sight (F.files shelf.old) (F.faults shelf.old))
        (sight (F.files shelf.new) (F.faults shelf.new))
        place status (O.shown out.old) (O.shown out.new)) }
    ensures files { F.files shelf.new ≡ F.files shelf.old }
    ensures faults { F.faults shelf.old ≤ F.faults shelf.new }
    ensures steady { OnOk result (F.faults shelf.new ≡ F.faults shelf.old) }
{
    match text_at(alloc, file_at(&place), shelf) {
        Ok(body) => Ok(Document { place, body }),
        Err(unread) => Err(tell_unread(out, name_of(&place), &unread)),
    }
}

/// The text of a document; it is empty where no file is named.
fn text_at<F: Shelf>(alloc: Global, file: Option<&Text>, shelf: &mut F) -> Result<Text, Unread>
    ensures text { IfOk result (λ text.
        IsDocument (F.files shelf.old) (option_copied file.entry) text) }
    ensures unread { IfErr result (λ u. IsPlaceUnread
        (sight (F.files shelf.old) (F.faults shelf.old))
        (sight (F.files shelf.new) (F.faults shelf.new)) (option_copied file.entry) u) }
    ensures files { F.files shelf.new ≡ F.files shelf.old }
    ensures faults { F.faults shelf.old ≤ F.faults shelf.new }
    ensures steady { OnOk result (F.faults shelf.new ≡ F.faults shelf.old) }
{
    let Some(file) = file else {
        return Ok(Text::of(alloc, "")?);
    };
    let bytes = fetch(alloc, file.as_str(), shelf)?;
    whole_text(alloc, bytes.as_slice())
}

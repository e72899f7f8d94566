//! The imports of a manifest's documents.
ghost use Rattle.rb_causes.specs.Causes.{Rose};
ghost use Rattle.rb_door.specs.Standing.{GoesOn};
ghost use Rattle.rb_log.specs.Rows.{is_clean_caller};
ghost use Rattle.rb_session.specs.Documents.{import_at};
ghost use Rattle.rb_session.specs.Imports.{ImportsAll, ImportsOne, ImportsStop, StopsAtOne};
ghost use Rattle.std.specs.Prelude.{◌≡◌, ◌⊎◌, IfErr, IfOk, OnOk, true};

use crate::place::{Document, Place};
use crate::places::name_of;
use crate::stopping::{stop_by, tell_stop};
use rb_acl::Caller;
use rb_causes::{Clock, Items, NoMemory, Sink, Text};
use rb_command::status::NO_MEMORY;
use rb_command::tell_memory;
use rb_log::{Call, Clerk};
use std::alloc::Global;

/// Imports the documents as this caller, in order and unchecked, until one is not taken: why is
/// told then, and the status is answered.
pub fn import_all<C: Clerk, T: Clock, O: Sink>(
    alloc: Global,
    clerk: &mut C,
    clock: &T,
    owner: &Caller,
    documents: Vec<Document>,
    out: &mut O,
) -> Result<(), u8>
    requires { is_clean_caller owner.now ≡ true }
    ensures ok { OnOk result (ImportsAll (T.may_be clock.now) owner.now documents.items
        (C.told clerk.old) (C.told clerk.new)) }
    ensures silent { OnOk result (O.shown out.new ≡ O.shown out.old) }
    ensures stopped { IfErr result (λ status. ImportsStop (T.may_be clock.now) owner.now
        documents.items (C.told clerk.old) (C.told clerk.new) status
        (O.shown out.old) (O.shown out.new)) }
    ensures statuses { IfErr result (λ status.
        (status ≡ 3) ⊎ (status ≡ 6) ⊎ (status ≡ 7) ⊎ (status ≡ 10)) }
    ensures goes { GoesOn (C.told clerk.old) (C.told clerk.new) }
    ensures cause { IfErr result (λ status. status ≡ 6
        → Rose (C.told clerk.old).faults (C.told clerk.new).faults) }
{
    for document in documents {
        import_document(alloc, clerk, clock, owner, document, out)?;
    }
    Ok(())
}

/// Imports a document at the clock's moment.
fn import_document<C: Clerk, T: Clock, O: Sink>(
    alloc: Global,
    clerk: &mut C,
    clock: &T,
    owner: &Caller,
    document: Document,
    out: &mut O,
) -> Result<(), u8>
    requires { is_clean_caller owner.now ≡ true }
    ensures ok { OnOk result (ImportsOne (T.may_be clock.now) owner.now document
        (C.told clerk.old) (C.told clerk.new)) }
    ensures silent { OnOk result (O.shown out.new ≡ O.shown out.old) }
    ensures stopped { IfErr result (λ status. StopsAtOne (T.may_be clock.now) owner.now
        document (C.told clerk.old) (C.told clerk.new) status
        (O.shown out.old) (O.shown out.new)) }
    ensures statuses { IfErr result (λ status.
        (status ≡ 3) ⊎ (status ≡ 6) ⊎ (status ≡ 7) ⊎ (status ≡ 10)) }
    ensures goes { GoesOn (C.told clerk.old) (C.told clerk.new) }
    ensures cause { IfErr result (λ status. status ≡ 6
        → Rose (C.told clerk.old).faults (C.told clerk.new).faults) }
{
    let at = clock.now();
    let Document { place, body } = document;
    let call = match import_at(alloc, owner, &place, body, at) {
        Ok(call) => call,
        Err(NoMemory) => {
            tell_memory(out);
            return Err(NO_MEMORY);
        }
    };
    match stop_by(clerk.act(call)) {
        None => Ok(()),
        Some(stop) => Err(tell_stop(out, name_of(&place), &stop)),
    }
}

/// The import of this text at this place, as this caller; of a zone that of its rule.
fn import_at(
    alloc: Global,
    owner: &Caller,
    place: &Place,
    body: Text,
    at: i64,
) -> Result<Call, NoMemory>
    ensures { IfOk result (λ call. call ≡ import_at owner.now place.now body at) }
{
    match place {
        Place::Zone {
            file: _,
            name,
            rule,
        } => Ok(Call::ImportZone {
            name: name.copy(alloc)?,
            rule: rule.copy(alloc)?,
            at,
        }),
        Place::Policy(file) => Ok(Call::ImportPolicy {
            caller: copy(alloc, owner)?,
            checked: false,
            name: file.copy(alloc)?,
            body,
            at,
        }),
        Place::Nodes { project, file: _ } => Ok(Call::ImportNodes {
            project: project.copy(alloc)?,
            body,
            at,
        }),
        Place::Jobs { project, file: _ } => Ok(Call::ImportJobs {
            caller: copy(alloc, owner)?,
            checked: false,
            project: project.copy(alloc)?,
            body,
            at,
        }),
    }
}

fn copies(alloc: Global, texts: &[Text]) -> Result<Items<Text>, NoMemory>
    ensures { IfOk result (λ copies. copies ≡ texts.now) }
{
    let mut copies = Items::new(alloc);
    for text in texts {
        copies.push(text.copy(alloc)?)?;
    }
    Ok(copies)
}

fn copy(alloc: Global, caller: &Caller) -> Result<Caller, NoMemory>
    ensures { IfOk result (λ copy. copy ≡ caller.now) }
{
    Ok(Caller {
        user: caller.user.copy(alloc)?,
        groups: copies(alloc, caller.groups.as_slice())?,
    })
}

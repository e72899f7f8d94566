//! The imports of the manifest's documents, by a pass.
ghost use Rattle.rb_causes.specs.Causes.{Rose};
ghost use Rattle.rb_log.specs.Rows.{is_clean_caller};
ghost use Rattle.rb_serve.specs.Passes.{standing};
ghost use Rattle.rb_serve.specs.Roles.{AreAll};
ghost use Rattle.rb_serve.specs.Served.{ByLast};
ghost use Rattle.rb_session.specs.Imports.{ImportsAll, ImportsStop};
ghost use Rattle.std.specs.Prelude.{◌≡◌, ◌≤◌, ◌<◌, ◌⊎◌, ◌∷◌, ◌++◌, [], All, IfErr, OnOk, length, map, true, vec_capacity};

use rb_acl::Caller;
use rb_board::{Board, Hand, Pass};
use rb_causes::{Clock, Keeper, Sink};
use rb_session::{Document, import_all};
use std::alloc::Global;
use std::sync::Wait;

/// Takes the last of these.
fn last<T>(items: &mut Vec<T>) -> T
    requires { 0 < length items.old.items }
    ensures items { items.old.items ≡ items.new.items ++ result ∷ [] }
    ensures capacity { vec_capacity items.new ≡ vec_capacity items.old }
{
    match items.pop() {
        Some(item) => item,
        None => unreachable!(),
    }
}

/// Imports the documents as this caller, by the last of the passes, until one is not taken: why is
/// told then, and the status is answered.
pub(crate) fn import_by<R: Wait, K: Keeper, T: Clock, O: Sink>(
    rt: &R,
    alloc: Global,
    board: &Board<K>,
    passes: &mut Vec<Pass>,
    clock: &T,
    owner: &Caller,
    documents: Vec<Document>,
    out: &mut O,
) -> Result<(), u8>
    requires owner { is_clean_caller owner.now ≡ true }
    requires some { 0 < length passes.old.items }
    requires all { All (λ p. p.id ≡ board.now.id) passes.old.items }
    ensures imported { OnOk result (ByLast passes.old.items passes.new.items
        (ImportsAll (T.may_be clock.now) owner.now documents.items)) }
    ensures silent { OnOk result (O.shown out.new ≡ O.shown out.old) }
    ensures stopped { IfErr result (λ status. ByLast passes.old.items passes.new.items
        (λ old new. ImportsStop (T.may_be clock.now) owner.now documents.items old new status
        (O.shown out.old) (O.shown out.new))) }
    ensures kept { map standing passes.new.items ≡ map standing passes.old.items }
    ensures statuses { IfErr result (λ status.
        (status ≡ 3) ⊎ (status ≡ 6) ⊎ (status ≡ 7) ⊎ (status ≡ 10)) }
    ensures store { IfErr result (λ status. status ≡ 6
        → ByLast passes.old.items passes.new.items (λ old new. Rose old.faults new.faults)) }
{
    let pass = last(passes);
    let mut hand = Hand::new(board, pass, rt);
    let imported = import_all(alloc, &mut hand, clock, owner, documents, out);
    passes.push_reserved(hand.into_pass());
    imported
}

//! A session behind the opening of its desk.
ghost use Rattle.rb_causes.specs.Causes.{Rose};
ghost use Rattle.rb_desk.specs.Steps.{told_of};
ghost use Rattle.rb_log.specs.Rows.{is_clean_caller};
ghost use Rattle.rb_session.specs.Statuses.{EndsAsTold, farewell_end};
ghost use Rattle.rb_session_top.specs.Sessions.{IsSaved, Serves};
ghost use Rattle.rb_session_top.specs.Sights.{callers_sight, desk_sight};
ghost use Rattle.std.specs.List.{list_all};
ghost use Rattle.std.specs.Prelude.{◌≡◌, ◌≤◌, Contains, true};

use crate::owned::Owned;
use crate::tools::Tools;
use rb_causes::{Clock, Keeper, Line, Sink, Spawner};
use rb_command::status::{DONE, NO_MEMORY};
use rb_command::tell_memory;
use rb_log::{Call, Clerk};
use rb_manifest::Manifest;
use rb_session::laws::{courses_run, courses_serve};
use rb_session::status::{LINE_FAILED, STORE_FAILED, TOO_MANY_CALLERS};
use rb_session::{
    Document, Farewell, Saving, import_all, run_course, saving_of, tell_callers, tell_line,
    tell_store,
};
use rb_work::Pumped;
use std::alloc::Global;

/// Imports the documents, serves the callers, and saves the log; gives the status.
pub(crate) fn serve<L: Line, S: Spawner, K: Keeper, C: Clock, O: Sink>(
    alloc: Global,
    clerk: &mut Owned<K>,
    line: &mut L,
    spawner: &mut S,
    clock: &C,
    manifest: &Manifest,
    documents: Vec<Document>,
    tools: &mut Tools,
    out: &mut O,
) -> u8
    requires owner { is_clean_caller manifest.now.owner ≡ true }
    requires tokens { list_all (λ t. is_clean_caller t.caller) manifest.now.tokens ≡ true }
    requires worker { Contains (told_of K.faults clerk.old.desk).rights.workers 0 }
    requires door { Contains (told_of K.faults clerk.old.desk).rights.doors 0 }
    ensures served { Serves (C.may_be clock.now) manifest.now documents.items
        (told_of K.faults clerk.old.desk) (told_of K.faults clerk.new.desk)
        (callers_sight (L.callers line.old) (L.faults line.old))
        (callers_sight (L.callers line.new) (L.faults line.new))
        (S.shown spawner.old) (S.shown spawner.new) (desk_sight clerk.new.desk) result
        (O.shown out.old) (O.shown out.new) }
    ensures line_fault { result ≡ 5 → Rose (L.faults line.old) (L.faults line.new) }
    ensures store { result ≡ 6 → Rose (K.faults clerk.old.desk.keeper)
        (K.faults clerk.new.desk.keeper) }
    ensures no_shelf { result ≡ 4 → ⊥ }
    ensures line { L.faults line.old ≤ L.faults line.new }
    ensures spawner { (S.shown spawner.old).faults ≤ (S.shown spawner.new).faults }
    ensures keeper { K.faults clerk.old.desk.keeper ≤ K.faults clerk.new.desk.keeper }
{
    courses_run(clock);
    courses_serve(clock);
    let imported = import_all(alloc, clerk, clock, &manifest.owner, documents, out);
    if let Err(status) = imported {
        return status;
    }
    let farewell = run_course(
        alloc,
        clerk,
        line,
        spawner,
        clock,
        &tools.router,
        manifest.tokens.as_slice(),
        manifest.inline,
        &mut tools.buffer,
    );
    let saving = save(clerk);
    tell_end(out, farewell, saving)
}

/// Has the keeper hold the whole log, and tells whether it does.
fn save<K: Keeper>(clerk: &mut Owned<K>) -> Saving
    ensures { IsSaved K.faults clerk.old.desk clerk.new.desk result }
{
    saving_of(clerk.act(Call::Save))
}

/// Tells what ended the session, unless it went well, and gives the status: a fault of the line; of
/// the store, in the last pump or in Save; want of memory; or one caller too many.
fn tell_end<O: Sink>(out: &mut O, farewell: Farewell, saving: Saving) -> u8
    ensures { EndsAsTold (farewell_end farewell saving) result (O.shown out.old) (O.shown out.new) }
{
    if farewell.callers.line_failed {
        tell_line(out);
        LINE_FAILED
    } else if farewell.last == Pumped::StoreFault || saving == Saving::StoreFault {
        tell_store(out);
        STORE_FAILED
    } else if farewell.callers.line_wanted
        || farewell.last != Pumped::Closed
        || saving != Saving::Saved
    {
        tell_memory(out);
        NO_MEMORY
    } else if farewell.callers.too_many {
        tell_callers(out);
        TOO_MANY_CALLERS
    } else {
        DONE
    }
}

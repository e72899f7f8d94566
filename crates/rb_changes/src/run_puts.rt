//! What an accepted run changes.
ghost use Rattle.rb_tables.specs.Changes.{Follow, ChangeMayCome};
ghost use Rattle.rb_tables.specs.Tables.{HasSpare};
ghost use Rattle.rb_tables.specs.declared.change.TableEffect.TheVariants as effects;
ghost use Rattle.std.specs.Prelude.{◌≡◌, ◌+◌, length, ◌<◌, ◌++◌, [], option_to_list, vec_capacity};

use crate::firing::{put_fire, put_fire_if};
use crate::moving::move_behind;
use crate::noting::note;
use rb_causes::{Items, Text};
use rb_plan::Running;
use rb_tables::change::RunEffect;
use rb_tables::laws::log_laws;
use rb_tables::tables::Tables;
use std::alloc::Global;
use std::mem;

/// An execution has begun.
pub(crate) fn put_run(tables: &mut Tables, alloc: Global, at: i64, counted: u64, new: RunEffect)
    requires comes { ChangeMayCome tables.old at counted (effects.Run new) }
    requires spare { HasSpare tables.old }
    ensures { Follow tables.old tables.new at counted (effects.Run new) }
{
    let RunEffect {
        need: _,
        fired,
        execution,
        new,
        room,
    } = new;
    log_laws();
    tables.owed_by_running += execution.owed();
    tables.executions.push_reserved(execution);
    let there = mem::replace(&mut tables.world.running, Items::new(alloc)).into_vec();
    tables.world.running = Items::of(all_running(room, there, new));
    put_fire_if(tables, alloc, at, fired);
    note(tables, at, counted);
}

/// A due job was skipped.
pub(crate) fn put_skip(tables: &mut Tables, alloc: Global, at: i64, counted: u64, id: Text)
    requires comes { ChangeMayCome tables.old at counted (effects.Skip id) }
    ensures { Follow tables.old tables.new at counted (effects.Skip id) }
{
    put_fire(tables, alloc, at, id.as_str());
    note(tables, at, counted);
}

/// All of these, and behind them the new one if there is one, in the memory that was made for them
/// where they have none.
pub(crate) fn all_running(
    mut room: Vec<Running>,
    mut there: Vec<Running>,
    new: Option<Running>,
) -> Vec<Running>
    requires empty { room.items ≡ [] }
    requires memory { length there.items < vec_capacity room }
    ensures { result.items ≡ there.items ++ option_to_list new }
{
    let Some(new) = new else {
        return there;
    };
    if there.len() < there.capacity() {
        there.push_reserved(new);
        return there;
    }
    move_behind(&mut room, there);
    room.push_reserved(new);
    room
}

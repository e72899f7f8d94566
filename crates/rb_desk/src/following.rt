//! The rows that a keeper holds, one after another.
ghost use Rattle.rb_causes.specs.Moments.{IsMoment};
ghost use Rattle.rb_causes.specs.declared.row.Row.{Row};
ghost use Rattle.rb_desk.specs.Following.{AreRefused, Follows, HasBounds, IsOther, ending_if, has_numbers, is_empty, is_first};
ghost use Rattle.rb_desk.specs.declared.unfit.Unfit.TheVariants as unfits;
ghost use Rattle.rb_log.specs.Executions.{executions};
ghost use Rattle.rb_log.specs.Legal.{IsOpening, may_have_form, open_leaf};
ghost use Rattle.rb_log.specs.LogState.{LogState, execution_at, log_state};
ghost use Rattle.rb_log.specs.Rows.{is_close, is_end};
ghost use Rattle.rb_tables.specs.Changes.{IsEffect};
ghost use Rattle.rb_tables.specs.Tables.{AreLogTables, IsTabled};
ghost use Rattle.std.specs.Prelude.{◌≡◌, ◌∷◌, true, Contains, Decides, List, IfErr, IfOk, OnOk, reverse};

use crate::judging::named_change;
use crate::may_ask::{has_door, is_moment};
use crate::open_err::OpenErr;
use crate::unfit::Unfit;
use rb_causes::{Ending, NoMemory, Row};
use rb_changes::applying::apply;
use rb_changes::ending::{ended_row, put_close, put_end};
use rb_changes::opening::{Opening, numbers_below, put_opening};
use rb_changes::room::prepare;
use rb_log::OpenLeaf;
use rb_tables::change::{Change, TableEffect};
use rb_tables::kinds::{CLOSE, END, OPENED};
use rb_tables::laws::log_laws;
use rb_tables::owing::place_of;
use rb_tables::plain_rows::{SECOND_FORM, close_row, counted_bytes, is_same_row};
use rb_tables::tables::Tables;
use std::alloc::Global;

/// How many doors, and how many workers, an opening may have.
const MOST_DOORS: u64 = 16;

const MOST_WORKERS: u64 = 64;

/// The first number that is none for draws.
const DRAW_END: u64 = 9_223_372_036_854_775_808;

/// The greatest code that an ending has, and what stands for a program that was not started.
const MOST_CODE: u64 = 256;

const NOT_STARTED: u64 = 257;

/// More rows are not opened for want of memory.
const MOST_ROWS: usize = 1_099_511_627_776;

/// Whether an opening of this form may come: a second check that has begun goes on.
fn may_have_form(tables: &Tables, form: &str) -> bool
    ensures { (s : LogState) → AreLogTables tables.now s → result ≡ may_have_form s form.now }
{
    form == SECOND_FORM || form == "" && !tables.checks
}

/// Whether the numbers of an opening are within their bounds.
fn has_bounds(row: &Row) -> bool
    ensures { Decides result (HasBounds row.now) }
{
    1 <= row.a && row.a <= MOST_DOORS && 1 <= row.b && row.b <= MOST_WORKERS && row.c < DRAW_END
}

/// Whether the row is an opening that may come.
fn is_opening(tables: &Tables, row: &Row) -> bool
    ensures { (s : LogState) → AreLogTables tables.now s → Decides result (IsOpening s row.now) }
{
    row.kind == OPENED
        && row.name.as_str() == ""
        && row.who.as_str() == ""
        && may_have_form(tables, row.body.as_str())
        && has_bounds(row)
        && tables.moment(row.at) == row.at
}

/// An opening.
fn follow_opening(tables: &mut Tables, alloc: Global, row: &Row) -> Result<(), Unfit>
    requires at { IsMoment row.now.at }
    requires tabled { (past : List Row) × IsTabled tables.old past }
    ensures { (past : List Row) → IsTabled tables.old past → is_first past row.now ≡ true →
        Follows past row.now tables.new result }
{
    if !is_opening(tables, row) {
        return Err(Unfit::Illegal);
    }
    let opening = Opening {
        at: row.at,
        doors: numbers_below(alloc, row.a as u32)?,
        workers: row.b as u32,
        draw: row.c,
        checks: row.body.as_str() == SECOND_FORM,
    };
    put_opening(tables, alloc, opening);
    Ok(())
}

/// Whether it is the leaf of this number of the execution of this number.
fn is_leaf(tables: &Tables, claimed: &OpenLeaf, execution: u64, leaf: u64) -> bool
    requires { (past : List Row) × IsTabled tables.now past
        × Contains (log_state past).leaves claimed.now }
    ensures { (past : List Row) → IsTabled tables.now past →
        Contains (log_state past).leaves claimed.now →
        result ≡ has_numbers (executions past) execution leaf claimed.now }
{
    log_laws();
    claimed.execution == execution
        && tables.executions[place_of(claimed.execution)].leaf_number(claimed.leaf) == leaf
}

/// The open leaf of this number of the execution of this number.
fn open_leaf(tables: &Tables, execution: u64, leaf: u64) -> Option<OpenLeaf>
    requires { (past : List Row) × IsTabled tables.now past }
    ensures { (past : List Row) → IsTabled tables.now past →
        result ≡ open_leaf (log_state past).leaves execution leaf
        (execution_at (log_state past) execution) }
{
    for claimed in tables.leaves.iter() {
        if is_leaf(tables, claimed, execution, leaf) {
            return Some(*claimed);
        }
    }
    None
}

/// The ending of this number, if there is one.
fn ending_of(number: u64) -> Option<Ending>
    ensures { result ≡ ending_if number }
{
    if number == NOT_STARTED {
        return Some(Ending::NotStarted);
    }
    if number <= MOST_CODE {
        Some(Ending::Code(number as u32))
    } else {
        None
    }
}

/// The end of a leaf.
fn follow_end(tables: &mut Tables, alloc: Global, row: &Row) -> Result<(), Unfit>
    requires at { IsMoment row.now.at }
    requires tabled { (past : List Row) × IsTabled tables.old past }
    ensures { (past : List Row) → IsTabled tables.old past → is_end row.now ≡ true →
        Follows past row.now tables.new result }
{
    let Some(claimed) = open_leaf(tables, row.a, row.b) else {
        return Err(Unfit::Illegal);
    };
    let Some(ending) = ending_of(row.c) else {
        return Err(Unfit::Illegal);
    };
    let at = tables.moment(row.at);
    if !is_same_row(&ended_row(tables, alloc, at, claimed, ending), row) {
        return Err(Unfit::Illegal);
    }
    put_end(tables, alloc, at, claimed, ending);
    Ok(())
}

/// The end of a door.
fn follow_close(tables: &mut Tables, alloc: Global, row: &Row) -> Result<(), Unfit>
    requires at { IsMoment row.now.at }
    requires tabled { (past : List Row) × IsTabled tables.old past }
    ensures { (past : List Row) → IsTabled tables.old past → is_close row.now ≡ true →
        Follows past row.now tables.new result }
{
    if row.a >= MOST_DOORS {
        return Err(Unfit::Illegal);
    }
    let door = row.a as u32;
    let at = tables.moment(row.at);
    if !has_door(tables.doors.as_slice(), door) || !is_same_row(&close_row(alloc, at, door), row) {
        return Err(Unfit::Illegal);
    }
    put_close(tables, at, door);
    Ok(())
}

/// A change that is another row is let go.
fn unlike(_change: Change) -> Unfit
    ensures { result ≡ unfits.Illegal }
{
    Unfit::Illegal
}

/// So is an effect for which memory is wanting.
fn wanting(_effect: TableEffect) -> Unfit
    ensures { result ≡ unfits.NoMemory }
{
    Unfit::NoMemory
}

/// The effect of a change that is this row.
fn effect_of(change: Change) -> TableEffect
    ensures { result ≡ change.effect }
{
    let Change {
        outcome: _,
        row: _,
        effect,
    } = change;
    effect
}

/// Makes the tables those of the log with this row, which has this effect.
fn put_effect(
    tables: &mut Tables,
    alloc: Global,
    row: &Row,
    effect: TableEffect,
) -> Result<(), Unfit>
    requires { (past : List Row) × IsTabled tables.old past × IsEffect past row.now effect }
    ensures ok { (past : List Row) → IsTabled tables.old past → IsEffect past row.now effect →
        OnOk result (AreLogTables tables.new (log_state (row.now ∷ past))) }
    ensures err { IfErr result (λ unfit. unfit ≡ unfits.NoMemory) }
{
    let Ok(_more) = prepare(tables, &effect) else {
        return Err(wanting(effect));
    };
    apply(tables, alloc, row.at, counted_bytes(row), effect);
    Ok(())
}

/// A row that is decided before it is added.
fn follow_change(tables: &mut Tables, alloc: Global, row: &Row) -> Result<(), Unfit>
    requires at { IsMoment row.now.at }
    requires may { (past : List Row) × IsTabled tables.old past × IsOther past row.now }
    ensures { (past : List Row) → IsTabled tables.old past → IsOther past row.now →
        Follows past row.now tables.new result }
{
    let change = named_change(tables, alloc, row)?;
    if is_same_row(&change.row, row) {
        put_effect(tables, alloc, row, effect_of(change))
    } else {
        Err(unlike(change))
    }
}

/// Makes the tables those of the log with this row, where it may come.
fn follow(tables: &mut Tables, alloc: Global, row: &Row, is_first: bool) -> Result<(), Unfit>
    requires { (past : List Row) × IsTabled tables.old past × (is_first ≡ is_empty past) }
    ensures { (past : List Row) → IsTabled tables.old past → is_first ≡ is_empty past →
        Follows past row.now tables.new result }
{
    if !is_moment(row.at) {
        return Err(Unfit::Illegal);
    }
    if is_first {
        return follow_opening(tables, alloc, row);
    }
    match row.kind {
        OPENED => follow_opening(tables, alloc, row),
        END => follow_end(tables, alloc, row),
        CLOSE => follow_close(tables, alloc, row),
        _ => follow_change(tables, alloc, row),
    }
}

/// The tables of these rows, where each may come behind those before it.
pub(crate) fn tables_of(alloc: Global, rows: &[Row]) -> Result<Tables, OpenErr>
    ensures tabled { IfOk result (λ tables. IsTabled tables (reverse rows.now)) }
    ensures refused { IfErr result (AreRefused rows.now) }
{
    if rows.len() >= MOST_ROWS {
        return Err(OpenErr::NoMemory);
    }
    let mut tables = Tables::empty(alloc);
    for (place, row) in rows.iter().enumerate() {
        match follow(&mut tables, alloc, row, place == 0) {
            Ok(()) => (),
            Err(unfit) => return Err(unfit.at_row(place as u64 + 1)),
        }
    }
    Ok(tables)
}

//! Steps on the seats of a board.
ghost use Rattle.rb_board.specs.Boards.{IsMade, IsMaker, IsOf, IsTakenIn, Takes, first_passes, seen_of};
ghost use Rattle.rb_board.specs.Entering.{CanEnter, GotTurn, HasAnswered, HasStepped, MayAnswer, MayStep};
ghost use Rattle.rb_board.specs.Plays.{entered, opening_of};
ghost use Rattle.rb_board.specs.Seats.{made_in, opening_in, seen_in};
ghost use Rattle.rb_board.specs.declared.view.View.TheVariants as view;
ghost use Rattle.std.specs.Prelude.{◌≡◌, [], All, IfOk, None, OnErr, OnOk, map, true, false};

use crate::pass::Pass;
use crate::rule::{
    Asking, Enter, GetTurn, GiveBack, Naming, OneMore, Place, TakeIn, TakeOut, TurnRule,
};
use crate::view::View;
use atomic_table::{Seat, Shared, Table};
use rb_causes::{Keeper, NoMemory};
use rb_desk::Desk;
use rb_log::laws::{one_row, open_once, rights_follow, tasks_are_claimed};
use rb_log::{Answer, Call};
use std::alloc::Global;
use std::marker::Brand;
use std::sync::Wait;

/// Two words and one slot, for the desk.
pub(crate) type Turns<K> = Table<Option<Desk<K>>, View, (), TurnRule, Global>;

pub(crate) type Steps<K> = Shared<Option<Desk<K>>, View, (), TurnRule>;

pub(crate) type Sitting<K> = Seat<Option<Desk<K>>, View>;

/// Lets go of what lay in a slot that held nothing.
pub(crate) fn let_go<K: Keeper>(slot: Option<Desk<K>>)
    requires { slot ≡ None }
{
    match slot {
        None => (),
        Some(_desk) => unreachable!(),
    }
}

/// Waits until the turn is had.
pub(crate) fn get_turn<R: Wait, K: Keeper>(rt: &R, shared: &Steps<K>, seat: &mut Sitting<K>)
    requires table { IsOf seat.old.table_id shared.now.table_id }
    requires idle { seat.old.me ≡ (view.Pass false (seen_in seat.old.me.0), []) }
    ensures table { seat.new.table_id ≡ seat.old.table_id }
    ensures turn { GotTurn K.faults (seen_in seat.old.me.0) seat.new.me }
{
    for _ in rt.forever() {
        if shared.compare_exchange::<GetTurn>(seat, 0, 0, 1) == 0 {
            return;
        }
        shared.park(rt, 0, 1);
    }
    unreachable!()
}

/// Enters the record that is named.
fn enter_as<N: Naming, K: Keeper>(
    shared: &Steps<K>,
    seat: &mut Sitting<K>,
    desk: &Desk<K>,
    before: usize,
    answer: &Answer,
)
    requires table { IsOf seat.old.table_id shared.now.table_id }
    requires turn { seat.old.me.0 ≡ view.Pass true (seen_in seat.old.me.0) }
    requires can { CanEnter (seen_in seat.old.me.0) N.entry N.log }
    ensures table { seat.new.table_id ≡ seat.old.table_id }
    ensures entered { seat.new.me
        ≡ (view.Pass true (entered (seen_in seat.old.me.0) N.entry N.log), seat.old.me.1) }
{
    // The entry is named by these, in the proof alone.
    let _ = desk;
    let _ = before;
    let _ = answer;
    shared.swap::<Enter<N>>(seat, 1, 0);
}

/// Has the desk answer, and enters the record.
fn step_as<A: Asking, K: Keeper>(
    alloc: Global,
    shared: &Steps<K>,
    seat: &mut Sitting<K>,
    desk: &mut Desk<K>,
    call: Call,
) -> Answer
    requires asked { A.call ≡ call }
    requires table { IsOf seat.old.table_id shared.now.table_id }
    requires turn { seat.old.me.0 ≡ view.Pass true (seen_in seat.old.me.0) }
    requires may { MayStep K.faults (seen_in seat.old.me.0) desk.old call }
    ensures table { seat.new.table_id ≡ seat.old.table_id }
    ensures stepped { HasStepped K.faults (seen_in seat.old.me.0) desk.new call result
        seat.old.me.1 seat.new.me }
{
    rights_follow();
    tasks_are_claimed();
    one_row();
    open_once();
    let before = desk.log().len();
    let answer = desk.step(alloc, call);
    enter_as::<Brand, K>(shared, seat, desk, before, &answer);
    answer
}

/// With the turn: has the desk answer, and gives the turn back.
pub(crate) fn answer_as<A: Asking, K: Keeper>(
    alloc: Global,
    shared: &Steps<K>,
    seat: &mut Sitting<K>,
    call: Call,
) -> Answer
    requires asked { A.call ≡ call }
    requires table { IsOf seat.old.table_id shared.now.table_id }
    requires turn { MayAnswer K.faults seat.old.me call }
    ensures table { seat.new.table_id ≡ seat.old.table_id }
    ensures answered { HasAnswered (seen_in seat.old.me.0) call result seat.new.me }
{
    let Some(mut desk) = shared.exchange(seat, 0, None) else {
        unreachable!()
    };
    let answer = step_as::<A, K>(alloc, shared, seat, &mut desk, call);
    let_go(shared.exchange(seat, 0, Some(desk)));
    shared.swap::<GiveBack>(seat, 0, 0);
    shared.wake_one(0);
    answer
}

/// The maker makes a pass.
pub(crate) fn new_pass<K: Keeper>(shared: &Steps<K>, maker: &mut Sitting<K>) -> Pass
    requires maker { IsOf maker.old.table_id shared.now.table_id }
    requires is { Takes maker.old.me }
    ensures table { maker.new.table_id ≡ maker.old.table_id }
    ensures made { IsMade maker.old.me maker.new.me maker.old.table_id result }
{
    Pass {
        badge: shared.split_seat::<OneMore>(maker).into_badge(),
    }
}

/// The desk is brought to its slot.
pub(crate) fn bring<K: Keeper>(shared: &Steps<K>, maker: &mut Sitting<K>, desk: Desk<K>)
    requires table { IsOf maker.old.table_id shared.now.table_id }
    requires opener { maker.old.me ≡ (view.Opener, []) }
    ensures table { maker.new.table_id ≡ maker.old.table_id }
    ensures placed { maker.new.me ≡ (view.Maker (opening_of K.faults desk) 0 [], []) }
{
    shared.swap::<TakeOut>(maker, 0, 1);
    let_go(shared.exchange(maker, 0, Some(desk)));
    shared.swap::<Place>(maker, 0, 0);
}

/// So many passes, where none was made.
pub(crate) fn new_passes<K: Keeper>(
    alloc: Global,
    shared: &Steps<K>,
    maker: &mut Sitting<K>,
    count: u32,
) -> Result<Vec<Pass>, NoMemory>
    requires table { IsOf maker.old.table_id shared.now.table_id }
    requires none { IsMaker 0 maker.old.me }
    ensures table { maker.new.table_id ≡ maker.old.table_id }
    ensures made { OnOk result
        (maker.new.me ≡ (view.Maker (opening_in maker.old.me.0) count [], [])) }
    ensures unmade { OnErr result (maker.new.me ≡ maker.old.me) }
    ensures passes { IfOk result (λ passes. passes.items
        ≡ first_passes maker.old.table_id (opening_in maker.old.me.0) count) }
{
    let Ok(mut passes) = Vec::with_capacity(alloc, count as usize) else {
        return Err(NoMemory);
    };
    for _number in 0..count {
        passes.push_reserved(new_pass(shared, maker));
    }
    Ok(passes)
}

/// The maker takes all passes in.
pub(crate) fn take_all<K: Keeper>(shared: &Steps<K>, maker: &mut Sitting<K>, mut passes: Vec<Pass>)
    requires table { IsOf maker.old.table_id shared.now.table_id }
    requires passes { All (λ p. p.id ≡ shared.now.table_id) passes.items }
    requires maker { IsMaker (made_in maker.old.me.0) maker.old.me }
    ensures table { maker.new.table_id ≡ maker.old.table_id }
    ensures taken { maker.new.me ≡ (
      view.Maker (opening_in maker.old.me.0)
          (made_in maker.old.me.0) (map seen_of passes.items),
      [],
    ) }
{
    while let Some(pass) = passes.pop() {
        take_in(shared, maker, pass);
    }
}

/// The maker takes a pass in.
pub(crate) fn take_in<K: Keeper>(shared: &Steps<K>, maker: &mut Sitting<K>, pass: Pass)
    requires maker { IsOf maker.old.table_id shared.now.table_id }
    requires pass { pass.id ≡ shared.now.table_id }
    requires is { Takes maker.old.me }
    ensures table { maker.new.table_id ≡ maker.old.table_id }
    ensures taken { IsTakenIn pass.seen maker.old.me maker.new.me }
{
    let Pass { badge } = pass;
    shared.join_seat::<TakeIn>(maker, badge.into_seat());
}

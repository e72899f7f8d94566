//! Parts on a board, and who plays them.
ghost use Rattle.rb_board_tests.specs.Kept.{AreCast, AreNew, AreOf, AreReady, pass_of};
ghost use Rattle.std.specs.Prelude.{◌≡◌, ◌≤◌, ◌∷◌, [], IfOk, IfSome, None, length, map, vec_capacity};

use crate::diary::Diary;
use crate::opening::board;
use rb_board::{Board, Pass};
use rb_causes::{MemKeeper, NoMemory, Row};
use std::alloc::Global;
use std::marker::Model;

/// A part on a board: of the doors by their numbers, and behind them of the workers.
#[derive(Drop)]
pub(crate) struct Role {
    pub(crate) pass: Pass,
    /// The number of the pass.
    pub(crate) place: u32,
    /// How many doors there are.
    pub(crate) doors: u32,
    pub(crate) diary: Diary,
}

impl Model for Role {
    ghost use Rattle.rb_board_tests.specs.Kept.{RoleValue};

    ghost Value = { RoleValue };

    ghost view = { λ r. record { pass = r.pass; place = r.place; doors = r.doors } };
}

/// A board with all its parts, and room for what is left of them.
pub(crate) struct Company {
    pub(crate) board: Board<MemKeeper>,
    pub(crate) roles: Vec<Role>,
    pub(crate) back: Vec<Pass>,
    pub(crate) diaries: Vec<Diary>,
}

/// The first of these passes.
fn first_pass(passes: &mut Vec<Pass>) -> Option<Pass>
    ensures some { IfSome result (λ pass. passes.old.items ≡ pass ∷ passes.new.items) }
    ensures none { result ≡ None → passes.old.items ≡ [] }
{
    if passes.is_empty() {
        return None;
    }
    Some(passes.remove(0))
}

/// The first of these parts.
fn first_role(roles: &mut Vec<Role>) -> Option<Role>
    ensures some { IfSome result (λ role. roles.old.items ≡ role ∷ roles.new.items) }
    ensures none { result ≡ None → roles.old.items ≡ [] }
{
    if roles.is_empty() {
        return None;
    }
    Some(roles.remove(0))
}

/// Gives each pass its part.
fn cast(alloc: Global, mut passes: Vec<Pass>, doors: u32, roles: &mut Vec<Role>)
    requires none { roles.old.items ≡ [] }
    requires room { length passes.items ≤ vec_capacity roles.old }
    requires passes { AreNew doors passes.items }
    ensures cast { AreCast passes.items roles.new.items }
    ensures capacity { vec_capacity roles.new ≡ vec_capacity roles.old }
{
    let mut place = 0u32;
    while let Some(pass) = first_pass(&mut passes) {
        roles.push_reserved(Role {
            pass,
            place,
            doors,
            diary: Diary::new(alloc, place.saturating_sub(doors)),
        });
        place += 1;
    }
}

/// A board of so many doors and workers, with its parts.
pub(crate) fn gather(
    alloc: Global,
    failing: Vec<u64>,
    doors: u32,
    workers: u32,
) -> Result<Company, NoMemory>
    requires doors { (1 ≤ doors) × (doors ≤ 16) }
    requires workers { (1 ≤ workers) × (workers ≤ 64) }
    ensures ready { IfOk result (λ c. AreReady c.board c.roles.items) }
    ensures room { IfOk result (λ c. (c.back.items ≡ []) × (c.diaries.items ≡ [])
        × (length c.roles.items ≤ vec_capacity c.back)
        × (length c.roles.items ≤ vec_capacity c.diaries)) }
{
    let count = doors + workers;
    let back = Vec::with_capacity(alloc, count as usize)?;
    let diaries = Vec::with_capacity(alloc, count as usize)?;
    let mut roles = Vec::with_capacity(alloc, count as usize)?;
    let mut board = board(alloc, failing, doors, workers)?;
    match board.passes(count) {
        Ok(passes) => {
            cast(alloc, passes, doors, &mut roles);
            Ok(Company {
                board,
                roles,
                back,
                diaries,
            })
        }
        Err(error) => {
            let _desk = board.close(Vec::new(alloc));
            Err(error)
        }
    }
}

/// Takes the parts off, and the passes and diaries back.
fn uncast(roles: &mut Vec<Role>, back: &mut Vec<Pass>, diaries: &mut Vec<Diary>)
    requires none { (back.old.items ≡ []) × (diaries.old.items ≡ []) }
    requires room { (length roles.old.items ≤ vec_capacity back.old)
        × (length roles.old.items ≤ vec_capacity diaries.old) }
    ensures { back.new.items ≡ map pass_of roles.old.items }
{
    while let Some(role) = first_role(roles) {
        let Role {
            pass,
            place: _,
            doors: _,
            diary,
        } = role;
        back.push_reserved(pass);
        diaries.push_reserved(diary);
    }
}

/// The log behind all that the passes did, and their diaries.
pub(crate) fn dismiss(company: Company) -> (Vec<Row>, Vec<Diary>)
    requires all { AreOf company.board company.roles.items }
    requires none { (company.back.items ≡ []) × (company.diaries.items ≡ []) }
    requires room { (length company.roles.items ≤ vec_capacity company.back)
        × (length company.roles.items ≤ vec_capacity company.diaries) }
{
    let Company {
        board,
        mut roles,
        mut back,
        mut diaries,
    } = company;
    uncast(&mut roles, &mut back, &mut diaries);
    (board.close(back).into_log(), diaries)
}

//! Who plays which part.
ghost use Rattle.rb_serve.specs.Roles.{AreCast, AreGiven, CanPlay, IsWhole, MayClose, MayEach, MayWork, line_in, lines_of, passes_of, spawner_in, spawners_of};
ghost use Rattle.rb_board.specs.Boards.{PassValue};
ghost use Rattle.std.specs.Prelude.{◌≡◌, ◌≤◌, ◌<◌, ◌+◌, ◌∷◌, ◌++◌, [], All, Some, drop, length, map, vec_capacity};

use crate::door_end::DoorEnd;
use crate::role::{Post, Role};
use crate::stage::{Stage, count_of};
use rb_board::Pass;
use rb_causes::{Line, Spawner};
use rb_wire::DoorBuffer;
use rb_work::Pumped;

/// Takes the first of these.
fn first<T>(items: &mut Vec<T>) -> T
    requires { 0 < length items.old.items }
    ensures items { items.old.items ≡ result ∷ items.new.items }
    ensures capacity { vec_capacity items.new ≡ vec_capacity items.old }
{
    items.remove(0)
}

/// Gives each line and each spawner a pass, doors before workers.
pub(crate) fn cast_all<L: Line + Drop, S: Spawner + Drop>(
    stage: Stage<L, S>,
    passes: &mut Vec<Pass>,
    lines: &mut Vec<L>,
    spawners: &mut Vec<S>,
) -> Vec<Role<L, S>>
    requires lines { length lines.old.items ≤ 16 }
    requires spawners { length spawners.old.items ≤ 64 }
    requires count { length passes.old.items
        ≡ length lines.old.items + length spawners.old.items }
    requires closing { MayEach MayClose (length lines.old.items) passes.old.items }
    requires working { MayEach MayWork (length spawners.old.items)
        (drop (length lines.old.items) passes.old.items) }
    requires buffers { length stage.buffers.items ≡ length lines.old.items }
    requires roles { stage.roles.items ≡ [] }
    requires room { length lines.old.items + length spawners.old.items
        ≤ vec_capacity stage.roles }
    ensures cast { AreCast passes.old.items lines.old.items spawners.old.items result.items }
    ensures none { (passes.new.items ≡ []) × (lines.new.items ≡ []) × (spawners.new.items ≡ []) }
    ensures pass_room { vec_capacity passes.new ≡ vec_capacity passes.old }
    ensures line_room { vec_capacity lines.new ≡ vec_capacity lines.old }
    ensures spawner_room { vec_capacity spawners.new ≡ vec_capacity spawners.old }
{
    let doors = count_of(lines);
    let workers = count_of(spawners);
    let Stage { buffers, mut roles } = stage;
    cast_doors(doors, passes, lines, buffers, &mut roles);
    cast_workers(workers, passes, spawners, &mut roles);
    roles
}

/// Gives each line a pass and a buffer: it is a door.
fn cast_doors<L: Line + Drop, S: Spawner + Drop>(
    doors: u32,
    passes: &mut Vec<Pass>,
    lines: &mut Vec<L>,
    mut buffers: Vec<DoorBuffer>,
    roles: &mut Vec<Role<L, S>>,
)
    requires lines { length lines.old.items ≡ doors }
    requires buffers { length buffers.items ≡ doors }
    requires passes { doors ≤ length passes.old.items }
    requires room { length roles.old.items + doors ≤ vec_capacity roles.old }
    requires may { MayEach MayClose doors passes.old.items }
    requires before { All CanPlay roles.old.items }
    ensures given { AreGiven roles.old.items roles.new.items passes.old.items passes.new.items
        lines.old.items lines.new.items [] [] }
    ensures lines { lines.new.items ≡ [] }
    ensures passes { length passes.new.items + doors ≡ length passes.old.items }
    ensures rest { passes.new.items ≡ drop doors passes.old.items }
    ensures roles { length roles.new.items ≡ length roles.old.items + doors }
    ensures line_room { vec_capacity lines.new ≡ vec_capacity lines.old }
    ensures pass_room { vec_capacity passes.new ≡ vec_capacity passes.old }
    ensures role_room { vec_capacity roles.new ≡ vec_capacity roles.old }
{
    for number in 0..doors {
        let pass = first(passes);
        let line = first(lines);
        let buffer = first(&mut buffers);
        roles.push_reserved(Role {
            pass: Some(pass),
            post: Post::Door {
                line,
                buffer,
                number,
                end: DoorEnd::Well,
            },
        });
    }
}

/// Gives each spawner a pass: it is a worker.
fn cast_workers<L: Line + Drop, S: Spawner + Drop>(
    workers: u32,
    passes: &mut Vec<Pass>,
    spawners: &mut Vec<S>,
    roles: &mut Vec<Role<L, S>>,
)
    requires spawners { length spawners.old.items ≡ workers }
    requires passes { workers ≤ length passes.old.items }
    requires room { length roles.old.items + workers ≤ vec_capacity roles.old }
    requires may { MayEach MayWork workers passes.old.items }
    requires before { All CanPlay roles.old.items }
    ensures given { AreGiven roles.old.items roles.new.items passes.old.items passes.new.items
        [] [] spawners.old.items spawners.new.items }
    ensures spawners { spawners.new.items ≡ [] }
    ensures passes { length passes.new.items + workers ≡ length passes.old.items }
    ensures roles { length roles.new.items ≡ length roles.old.items + workers }
    ensures spawner_room { vec_capacity spawners.new ≡ vec_capacity spawners.old }
    ensures pass_room { vec_capacity passes.new ≡ vec_capacity passes.old }
    ensures role_room { vec_capacity roles.new ≡ vec_capacity roles.old }
{
    for number in 0..workers {
        let pass = first(passes);
        let spawner = first(spawners);
        roles.push_reserved(Role {
            pass: Some(pass),
            post: Post::Worker {
                spawner,
                number,
                said: Pumped::Closed,
            },
        });
    }
}

/// Takes the parts off: passes, lines and spawners go back to where they were.
pub(crate) fn dismiss<L: Line + Drop, S: Spawner + Drop>(
    passes: &mut Vec<Pass>,
    lines: &mut Vec<L>,
    spawners: &mut Vec<S>,
    mut roles: Vec<Role<L, S>>,
)
    requires none { (passes.old.items ≡ []) × (lines.old.items ≡ []) × (spawners.old.items ≡ []) }
    requires whole { All IsWhole roles.items }
    requires passes { length (passes_of roles.items) ≤ vec_capacity passes.old }
    requires lines { length (lines_of roles.items) ≤ vec_capacity lines.old }
    requires spawners { length (spawners_of roles.items) ≤ vec_capacity spawners.old }
    ensures passes { map Some passes.new.items ≡ passes_of roles.items }
    ensures lines { lines.new.items ≡ lines_of roles.items }
    ensures spawners { spawners.new.items ≡ spawners_of roles.items }
{
    while !roles.is_empty() {
        let role = first(&mut roles);
        take_off(role, passes, lines, spawners);
    }
}

/// Takes one part off.
fn take_off<L: Line + Drop, S: Spawner + Drop>(
    role: Role<L, S>,
    passes: &mut Vec<Pass>,
    lines: &mut Vec<L>,
    spawners: &mut Vec<S>,
)
    requires whole { IsWhole role }
    requires passes { length passes.old.items < vec_capacity passes.old }
    requires lines { length lines.old.items + length (line_in role.post [])
        ≤ vec_capacity lines.old }
    requires spawners { length spawners.old.items + length (spawner_in role.post [])
        ≤ vec_capacity spawners.old }
    ensures passes { map Some passes.new.items ≡ map Some passes.old.items ++ role.pass ∷ [] }
    ensures lines { lines.new.items ≡ lines.old.items ++ line_in role.post [] }
    ensures spawners { spawners.new.items ≡ spawners.old.items ++ spawner_in role.post [] }
    ensures pass_room { vec_capacity passes.new ≡ vec_capacity passes.old }
    ensures line_room { vec_capacity lines.new ≡ vec_capacity lines.old }
    ensures spawner_room { vec_capacity spawners.new ≡ vec_capacity spawners.old }
{
    let Role { pass, post } = role;
    hand_back(pass, passes);
    hand_over(post, lines, spawners);
}

/// The pass goes back.
fn hand_back(pass: Option<Pass>, passes: &mut Vec<Pass>)
    requires some { (p : PassValue) × (pass ≡ Some p) }
    requires room { length passes.old.items < vec_capacity passes.old }
    ensures items { map Some passes.new.items ≡ map Some passes.old.items ++ pass ∷ [] }
    ensures capacity { vec_capacity passes.new ≡ vec_capacity passes.old }
{
    if let Some(pass) = pass {
        passes.push_reserved(pass);
    }
}

/// The line or the spawner goes back.
fn hand_over<L: Line + Drop, S: Spawner + Drop>(
    post: Post<L, S>,
    lines: &mut Vec<L>,
    spawners: &mut Vec<S>,
)
    requires lines { length lines.old.items + length (line_in post []) ≤ vec_capacity lines.old }
    requires spawners { length spawners.old.items + length (spawner_in post [])
        ≤ vec_capacity spawners.old }
    ensures lines { lines.new.items ≡ lines.old.items ++ line_in post [] }
    ensures spawners { spawners.new.items ≡ spawners.old.items ++ spawner_in post [] }
    ensures line_room { vec_capacity lines.new ≡ vec_capacity lines.old }
    ensures spawner_room { vec_capacity spawners.new ≡ vec_capacity spawners.old }
{
    match post {
        Post::Door {
            line,
            buffer: _buffer,
            number: _number,
            end: _end,
        } => lines.push_reserved(line),
        Post::Worker {
            spawner,
            number: _number,
            said: _said,
        } => spawners.push_reserved(spawner),
    }
}

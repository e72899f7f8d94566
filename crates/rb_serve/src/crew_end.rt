//! How all parts ended.
ghost use Rattle.rb_serve.specs.Roles.{is_failed, is_store_fault, is_wanting};
ghost use Rattle.std.specs.List.{list_any};
ghost use Rattle.std.specs.Prelude.{◌≡◌};

use crate::door_end::DoorEnd;
use crate::role::{Post, Role};
use rb_causes::{Line, Spawner};
use rb_work::Pumped;

/// What is told of all parts.
#[derive(Clone, Copy, Debug, PartialEq, Eq)]
pub struct CrewEnd {
    /// The line of a door failed.
    pub line_failed: bool,
    /// The store failed, as a worker said last.
    pub store_failed: bool,
    /// Memory was wanting: for a reply, or as a worker said last.
    pub wanting: bool,
}

/// How they ended.
pub(crate) fn crew_end<L: Line + Drop, S: Spawner + Drop>(roles: &[Role<L, S>]) -> CrewEnd
    ensures line { result.line_failed ≡ list_any (λ r. is_failed r.post) roles.now }
    ensures store { result.store_failed ≡ list_any (λ r. is_store_fault r.post) roles.now }
    ensures wanting { result.wanting ≡ list_any (λ r. is_wanting r.post) roles.now }
{
    CrewEnd {
        line_failed: roles.iter().any(|role| is_failed(&role.post)),
        store_failed: roles.iter().any(|role| is_store_fault(&role.post)),
        wanting: roles.iter().any(|role| is_wanting(&role.post)),
    }
}

fn is_failed<L: Line + Drop, S: Spawner + Drop>(post: &Post<L, S>) -> bool
    ensures { result ≡ is_failed post.now }
{
    match post {
        Post::Door { end, .. } => *end == DoorEnd::Failed,
        Post::Worker { .. } => false,
    }
}

fn is_store_fault<L: Line + Drop, S: Spawner + Drop>(post: &Post<L, S>) -> bool
    ensures { result ≡ is_store_fault post.now }
{
    match post {
        Post::Door { .. } => false,
        Post::Worker { said, .. } => *said == Pumped::StoreFault,
    }
}

/// A worker ended before all was over, or a reply wanted memory.
fn is_wanting<L: Line + Drop, S: Spawner + Drop>(post: &Post<L, S>) -> bool
    ensures { result ≡ is_wanting post.now }
{
    match post {
        Post::Door { end, .. } => *end == DoorEnd::Wanting,
        Post::Worker { said, .. } => *said != Pumped::Closed,
    }
}

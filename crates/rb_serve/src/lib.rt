//! A server of several doors and workers, each in a thread of its own, over one board.
#![tactic(auto)]

mod casting;
mod crew_end;
mod door_end;
mod doors;
mod importing;
mod performing;
mod playing;
mod role;
mod serving;
mod stage;
mod top;
mod words;

pub use crew_end::CrewEnd;
pub use door_end::DoorEnd;
pub use role::{Post, Role};
pub use top::serve_top;
pub use words::{Crew, crew_in};

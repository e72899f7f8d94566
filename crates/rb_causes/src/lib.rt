//! What every layer of the server speaks of: texts, want of memory, and the outside with its
//! faults.
//!
//! The outside is reached through traits. Each object behind one counts its faults, and answers
//! `Failed` only where that count rose in the same call. The objects in memory also tell what they
//! hold; the real ones tell nothing.
#![tactic(auto)]

mod clock;
mod decimals;
mod ending;
mod items;
mod keeper;
mod letter;
mod line;
mod mem_callers;
mod mem_keeper;
mod mem_line;
mod mem_shelf;
mod mem_sink;
mod mem_spawner;
mod planned_faults;
mod row;
mod seen_texts;
mod shelf;
mod sink;
mod spawner;
mod splitting;
mod steady_keeper;
mod steady_line;
mod steady_shelf;
mod steady_sink;
mod steady_spawner;
mod text;
mod trimming;
mod trouble;
mod truths;
mod word_texts;
pub mod words_laws;

pub use clock::{Clock, FixedClock};
pub use decimals::decimal;
pub use ending::Ending;
pub use items::{Items, Prop};
pub use keeper::Keeper;
pub use letter::Letter;
pub use line::Line;
pub use mem_keeper::MemKeeper;
pub use mem_line::MemLine;
pub use mem_shelf::MemShelf;
pub use mem_sink::MemSink;
pub use mem_spawner::MemSpawner;
pub use planned_faults::PlannedFaults;
pub use row::Row;
pub use seen_texts::SeenTexts;
pub use shelf::{File, Shelf};
pub use sink::{Sink, put_all};
pub use spawner::{SpawnRun, Spawner, are_codes};
pub use splitting::{SplitErr, split_words};
pub use steady_keeper::SteadyKeeper;
pub use steady_line::SteadyLine;
pub use steady_shelf::SteadyShelf;
pub use steady_sink::SteadySink;
pub use steady_spawner::SteadySpawner;
pub use text::Text;
pub use trimming::{comma_items, trimmed};
pub use trouble::{Failed, NoMemory, Trouble};
pub use truths::truth_of;
pub use word_texts::{WordsErr, words};

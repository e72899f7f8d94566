//! The steps of a session, over any shelf, clerk, line, spawner and clock: its files are fetched
//! and imported, and its callers served.
#![tactic(auto)]

mod farewell;
mod fetching;
mod importing;
pub mod laws;
mod place;
mod places;
mod saving;
mod serving;
pub mod status;
mod stopping;
mod telling;
mod unread;
mod unread_telling;
mod whole_texts;

pub use farewell::{CallersEnd, Farewell};
pub use fetching::fetch_all;
pub use importing::import_all;
pub use place::{Document, Place};
pub use saving::{Saving, saving_of};
pub use serving::run_course;
pub use telling::{tell_callers, tell_full, tell_line, tell_row, tell_store};
pub use unread::Unread;

//! A keeper of a log's rows in a table of SQLite, in a file or in memory.
#![tactic(auto)]

mod appending;
mod entry;
mod format;
mod mem_sql_keeper;
mod reading;
mod refusal;
mod sql_keeper;

pub use mem_sql_keeper::{FirstErr, MemSqlKeeper};
pub use sql_keeper::SqlKeeper;

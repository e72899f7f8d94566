//! The running tables of a log: what it says at its end, so that no call goes through it.
#![tactic(auto)]

pub mod change;
pub mod due;
pub mod duplicate;
pub mod execution;
pub mod job_id;
pub mod kinds;
pub mod latest;
pub mod laws;
pub mod leaves;
pub mod marking;
pub mod owing;
pub mod permissions;
pub mod plain_rows;
pub mod progress;
pub mod rows;
pub mod running_rows;
pub mod sameness;
pub mod tables;
pub mod views;
pub mod who;

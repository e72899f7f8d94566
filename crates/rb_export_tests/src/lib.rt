//! Documents that are exported, read and exported again: tests alone, by public calls.
#![tactic(auto)]

#[cfg(test)]
mod jobs;
#[cfg(test)]
mod policies;

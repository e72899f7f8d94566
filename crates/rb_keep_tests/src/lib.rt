//! Rows in files and in memory, with the faults of files: tests alone, by public calls.
#![tactic(auto)]

#[cfg(test)]
mod keeping;
#[cfg(test)]
mod samples;
#[cfg(test)]
mod tests;

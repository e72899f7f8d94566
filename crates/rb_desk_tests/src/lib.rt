//! Scripts for a desk, desks over files, sessions, tools and drills in memory: tests alone, so that
//! what they call is not proved again with them, and in one crate, so that the desk is built once
//! for all of them.
#![tactic(auto)]

#[cfg(test)]
mod desk_tests;
#[cfg(test)]
mod desks;
#[cfg(test)]
mod documents;
#[cfg(test)]
mod drills;
#[cfg(test)]
mod forms;
#[cfg(test)]
mod restart_tests;
#[cfg(test)]
mod samples;
#[cfg(test)]
mod scripts;
#[cfg(test)]
mod session_files;
#[cfg(test)]
mod session_tests;
#[cfg(test)]
mod sessions;
#[cfg(test)]
mod stopped_run;
#[cfg(test)]
mod store_tests;
#[cfg(test)]
mod telling;
#[cfg(test)]
mod tools;

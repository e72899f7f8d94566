//! Texts, documents, filters, policies, jobs, runs and requests of a few words each: tests alone,
//! so that the crates which they call are not proved again with them.
#![tactic(auto)]

#[cfg(test)]
mod crontabs;
#[cfg(test)]
mod documents;
#[cfg(test)]
mod expanding;
#[cfg(test)]
mod filters;
#[cfg(test)]
mod flows;
#[cfg(test)]
mod inventories;
#[cfg(test)]
mod jobs;
#[cfg(test)]
mod options;
#[cfg(test)]
mod patterns;
#[cfg(test)]
mod policies;
#[cfg(test)]
mod ranks;
#[cfg(test)]
mod requests;
#[cfg(test)]
mod texts;

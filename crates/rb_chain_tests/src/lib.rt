//! Tests of chains, by their public calls alone: documents, and what is asked for next.
#![tactic(auto)]

#[cfg(test)]
mod documents;
#[cfg(test)]
mod following;
#[cfg(test)]
mod showing;

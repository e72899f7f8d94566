//! Tests of servers of several doors and workers, by their public calls alone.
#![tactic(auto)]

#[cfg(test)]
mod documents;
#[cfg(test)]
mod gates;
#[cfg(test)]
mod playing;
#[cfg(test)]
mod tests;

//! Tests of boards, by their public calls alone.
#![tactic(auto)]

#[cfg(test)]
mod acting;
#[cfg(test)]
mod calls;
#[cfg(test)]
mod casting;
#[cfg(test)]
mod diary;
#[cfg(test)]
mod hammering;
#[cfg(test)]
mod opening;
#[cfg(test)]
mod quiet;
#[cfg(test)]
mod tests;

//! Worked rows of the HTTP API, each by computation: laws alone.
#![tactic(auto)]

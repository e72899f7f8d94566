//! Who may do what: policies, and the decision on an action with the clause that decides it.
#![tactic(auto)]

mod applying;
mod caller_index;
mod columns;
mod deciding;
mod effect;
mod fitting;
mod joining;
mod keyed;
mod keys;
pub mod laws;
mod naming;
mod numbering;
mod parts;
mod policy;
mod rule_index;
mod seeking;
mod seeking_each;
mod testing;

pub use caller_index::CallerIndex;
pub use deciding::decide;
pub use naming::clause_text;
pub use policy::{
    ByRule, Caller, Clause, Context, Decision, Policies, Policy, Resource, Rule, Scope, Test,
    TypeRules,
};
pub use rb_text::{Pattern, Room, Value};

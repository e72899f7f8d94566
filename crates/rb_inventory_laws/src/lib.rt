//! What an inventory is whose documents were read of a text: what `rb_inventory` and `rb_yaml_laws`
//! say together.
#![tactic(auto)]

pub mod laws;

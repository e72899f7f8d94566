//! What a text means as YAML, as a relation between its lines and its documents, and the laws that
//! join `rb_yaml` to it.
#![tactic(auto)]

pub mod laws;

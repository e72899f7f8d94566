//! Reads documents of a part of YAML 1.2, in which every scalar is a text. All else is refused by
//! name
//! with its line.
#![tactic(auto)]

mod alone;
mod deep;
mod documents;
mod edges;
mod entries;
mod fault;
mod faults;
mod flaw;
mod flow;
mod flow_scalars;
mod flow_values;
mod keys;
mod line;
mod literals;
mod markers;
mod nodes;
mod parts;
mod quotes;
mod reader;
mod rows;
mod scalars;
mod signs;
mod yaml;

pub use fault::{YamlErr, YamlFault, YamlKind};
pub use reader::read_docs;
pub use yaml::{Doc, Pair, Yaml};

//! The manifest: whose documents a server begins with, and who may ask it.
#![tactic(auto)]

mod entries;
mod entry_kind;
mod flaws;
pub mod laws;
mod manifest;
mod manifest_err;
mod names;
mod reader;
mod text_rule;
mod values;

pub use entry_kind::EntryKind;
pub use manifest::{Manifest, ProjectDocs};
pub use manifest_err::{ManifestErr, ManifestFault};
pub use rb_api::Token;
pub use reader::read_manifest;
pub use text_rule::TextRule;

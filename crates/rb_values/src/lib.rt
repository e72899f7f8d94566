//! The values of YAML documents as texts, lists and maps: what the readers of documents look at.
#![tactic(auto)]

mod keys;
mod values;

pub use keys::{entries_at, has_key, items_at, text_at, value_at};
pub use values::{
    are_texts, entries_in, is_text, items_in, key_of, map_entries, sequence_items, text_in,
    value_of,
};

//! The tags that a text writes.
ghost use Rattle.rb_node.specs.Tags.{once, tags_in};
ghost use Rattle.std.specs.Prelude.{◌≡◌, IfOk};

use rb_causes::{Items, NoMemory, SeenTexts, Text, comma_items};
use std::alloc::Global;

/// The tags of a text: what stands between its commas, trimmed, without empty ones, each once,
/// where it first stands.
pub fn tags_in(alloc: Global, text: &str) -> Result<Items<Text>, NoMemory>
    ensures { IfOk result (λ tags. tags ≡ tags_in text.now) }
{
    once(alloc, comma_items(alloc, text)?)
}

/// The texts, each once, where it first stands.
pub fn once(alloc: Global, texts: Vec<Text>) -> Result<Items<Text>, NoMemory>
    ensures { IfOk result (λ kept. kept ≡ once texts.items) }
{
    let mut seen = SeenTexts::new(alloc);
    let mut kept = Items::new(alloc);
    for text in texts {
        if !seen.holds(text.as_str()) {
            seen.note(alloc, text.as_str())?;
            kept.push(text)?;
        }
    }
    Ok(kept)
}

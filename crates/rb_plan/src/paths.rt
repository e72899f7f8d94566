//! The path of a reference: `GROUP/NAME` of each reference from the asked job's own step down.
ghost use Rattle.rb_plan.specs.Resolved.{label};
ghost use Rattle.std.specs.Prelude.{◌≡◌, ◌++◌, ◌∷◌, [], IfOk};

use crate::copying::copy_texts;
use rb_causes::{Items, NoMemory, Text};
use std::alloc::Global;

/// GROUP/NAME.
fn label(alloc: Global, group: &str, name: &str) -> Result<Text, NoMemory>
    ensures { IfOk result (λ text. text ≡ label group.now name.now) }
{
    Ok(Text::from_string(format!(in alloc; "{group}/{name}")?))
}

pub(crate) fn path_below(
    alloc: Global,
    path: &[Text],
    group: &str,
    name: &str,
) -> Result<Items<Text>, NoMemory>
    ensures { IfOk result (λ below. below ≡ path.now ++ label group.now name.now ∷ []) }
{
    let mut below = copy_texts(alloc, path)?;
    below.push(label(alloc, group, name)?)?;
    Ok(below)
}

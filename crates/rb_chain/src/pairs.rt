//! The option values that a run gives.
ghost use Rattle.rb_chain.specs.Forms.{args_at};
ghost use Rattle.rb_option.specs.Arguments.{args_of};
ghost use Rattle.rb_yaml.specs.Tree.{pair_tree};
ghost use Rattle.std.specs.Prelude.{◌≡◌, IfOk, map};
ghost use Rattle.std.specs.Result.{result_ok};

use rb_causes::{Items, NoMemory, Prop};
use rb_option::{ArgsErr, read_args};
use rb_values::text_at;
use rb_yaml::Pair;
use std::alloc::Global;

/// As many bytes as a text of pairs may not have. A text of a document has fewer.
const TOO_LONG: usize = 4_294_967_296;

/// The pairs of a text, if it is one of pairs.
fn pairs_of(alloc: Global, text: &str) -> Result<Option<Items<Prop>>, NoMemory>
    ensures { IfOk result (λ pairs. pairs ≡ result_ok (args_of text.now)) }
{
    if TOO_LONG <= text.len() {
        return Err(NoMemory);
    }
    match read_args(alloc, text) {
        Ok(pairs) => Ok(Some(Items::of(pairs))),
        Err(ArgsErr::OpenQuote) => Ok(None),
        Err(ArgsErr::NotAnOption(_)) => Ok(None),
        Err(ArgsErr::NoValue(_)) => Ok(None),
        Err(ArgsErr::NoMemory) => Err(NoMemory),
    }
}

/// Those of the text under `args`, and of an empty text where nothing stands there.
pub(crate) fn args_at(alloc: Global, entries: &[Pair]) -> Result<Option<Items<Prop>>, NoMemory>
    ensures { IfOk result (λ pairs. pairs ≡ result_ok (args_at (map pair_tree entries.now))) }
{
    match text_at(entries, "args") {
        None => pairs_of(alloc, ""),
        Some(text) => pairs_of(alloc, text.as_str()),
    }
}

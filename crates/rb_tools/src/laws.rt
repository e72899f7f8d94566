//! What the answers of a check mean for those who rest on it: each function proves a law.
ghost use Rattle.rb_tools.specs.Laws.{CountsNodes};

use crate::tool::tool_top;
use rb_causes::{Shelf, Sink, SteadyShelf, SteadySink, Text};
use std::alloc::Global;

/// Where nothing outside fails, the nodes of a file are counted, with the status 0, or 7 where
/// memory is wanting.
pub fn check_steadily(
    alloc: Global,
    words: &[Text],
    shelf: &mut SteadyShelf,
    out: &mut SteadySink,
) -> u8
    ensures { let shown = ⟦<SteadySink as Sink>⟧.shown in
        CountsNodes (⟦<SteadyShelf as Shelf>⟧.files shelf.old) words.now result
        (shown out.old) (shown out.new) }
{
    tool_top(alloc, words, shelf, out)
}

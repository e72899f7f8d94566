//! The parts of a list of lines.
ghost use Rattle.rb_yaml.specs.Edges.{edge_test};
ghost use Rattle.rb_yaml.specs.PartsView.{part_view};
ghost use Rattle.rb_yaml.specs.Parts.{parts};
ghost use Rattle.std.specs.Prelude.{◌≡◌, ◌≤◌, [], length, drop, map, IfOk};

use crate::edges::{Edge, split_until};
use crate::line::SourceLine;
use rb_causes::NoMemory;
use std::alloc::Global;

/// The line that begins a part, and the lines behind it.
#[derive(Drop)]
pub(crate) struct BlockPart<'s, 'a> {
    pub first: SourceLine<'a>,
    pub body: &'s [SourceLine<'a>],
}

fn make_part<'s, 'a>(first: SourceLine<'a>, body: &'s [SourceLine<'a>]) -> BlockPart<'s, 'a>
    ensures { part_view result ≡ (first.entry, body.now) }
{
    BlockPart { first, body }
}

/// The lines from a place on.
fn rest_from<'s, 'a>(lines: &'s [SourceLine<'a>], at: usize) -> &'s [SourceLine<'a>]
    requires { at ≤ length lines.now }
    ensures { result.now ≡ drop at lines.now }
{
    &lines[at..]
}

/// The parts of these lines, of which the head begins the first.
pub(crate) fn split_parts<'s, 'a>(
    alloc: Global,
    edge: Edge,
    head: &SourceLine<'a>,
    lines: &'s [SourceLine<'a>],
) -> Result<Vec<BlockPart<'s, 'a>>, NoMemory>
    ensures { IfOk result (λ v. map part_view v.items ≡
        parts (edge_test edge) head.now [] lines.now) }
{
    let mut made = Vec::new(alloc);
    let mut first = head.copy();
    let mut at = 0;
    loop {
        let (body, _more) = split_until(edge, rest_from(lines, at));
        let end = at + body.len();
        made.push(make_part(first, body))?;
        if end >= lines.len() {
            return Ok(made);
        }
        first = lines[end].copy();
        at = end + 1;
    }
}

//! Where the parts of a list of lines begin.
ghost use Rattle.rb_yaml.specs.Edges.{begins_entry, begins_part, edge_test, is_item_at};
ghost use Rattle.rb_yaml.specs.Parts.{onward, until};
ghost use Rattle.std.specs.Prelude.{◌≡◌, ◌≤◌, drop, length, take};

use crate::line::SourceLine;
use crate::markers::is_marker;
use crate::rows::is_content;
use crate::signs::begins_item;

/// What begins a part.
#[derive(Clone, Copy)]
pub(crate) enum Edge {
    /// An item of a sequence at this indent, or a line that ends it.
    BlockPart(usize),
    /// An entry of a map at this indent, or a line that ends it.
    Entry(usize),
    /// An item at this indent.
    Item(usize),
    /// A line at column 0 that separates documents, or that is not read.
    Marker,
}

fn begins_part(indent: usize, line: &SourceLine) -> bool
    ensures { result ≡ begins_part indent line.now }
{
    is_content(line) && line.indent() <= indent
}

fn is_item_at(indent: usize, line: &SourceLine) -> bool
    ensures { result ≡ is_item_at indent line.now }
{
    line.indent() == indent && begins_item(line.text())
}

fn begins_entry(indent: usize, line: &SourceLine) -> bool
    ensures { result ≡ begins_entry indent line.now }
{
    begins_part(indent, line) && !is_item_at(indent, line)
}

fn begins_at(edge: Edge, line: &SourceLine) -> bool
    ensures { result ≡ edge_test edge line.now }
{
    match edge {
        Edge::BlockPart(indent) => begins_part(indent, line),
        Edge::Entry(indent) => begins_entry(indent, line),
        Edge::Item(indent) => is_item_at(indent, line),
        Edge::Marker => is_marker(line),
    }
}

/// How many lines come before the first that begins a part.
pub(crate) fn until_len(edge: Edge, lines: &[SourceLine]) -> usize
    ensures within { result ≤ length lines.now }
    ensures front { take result lines.now ≡ until (edge_test edge) lines.now }
    ensures rest { drop result lines.now ≡ onward (edge_test edge) lines.now }
{
    let mut at = 0;
    while at < lines.len() && !begins_at(edge, &lines[at]) {
        at += 1;
    }
    at
}

/// The lines before the first that begins a part, and the lines from it on.
pub(crate) fn split_until<'s, 'a>(
    edge: Edge,
    lines: &'s [SourceLine<'a>],
) -> (&'s [SourceLine<'a>], &'s [SourceLine<'a>])
    ensures front { result.0.now ≡ until (edge_test edge) lines.now }
    ensures rest { result.1.now ≡ onward (edge_test edge) lines.now }
{
    lines.split_at(until_len(edge, lines))
}

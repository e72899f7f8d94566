ghost use Rattle.rb_orch.specs.Ranking.{number_or_text, value_cmp, rank_text, directed_cmp, rank_cmp, is_same_rank, ranked};
ghost use Rattle.std.specs.Option.{option_copied};
ghost use Rattle.std.specs.Prelude.{◌≡◌, IfOk, IsPermutation, IsSorted};
ghost use Rattle.std.specs.List.Sorted.{IsStable};

use rb_causes::{NoMemory, decimal};
use rb_node::Node;
use std::cmp::Ordering;

/// The nodes in rank order: by the attribute `by`, or by name where it is None; decimals by number
/// before all other texts, a missing attribute as the empty text. `down` turns the order of the
/// values; nodes of one value stand by name, ascending. A failed call drops the nodes.
pub fn rank(nodes: Vec<Node>, by: Option<&str>, down: bool) -> Result<Vec<Node>, NoMemory>
    ensures permutation { IfOk result (λ ranked. IsPermutation nodes.items ranked.items) }
    ensures sorted { IfOk result (λ ranked.
        IsSorted (rank_cmp (option_copied by.entry) down) ranked.items) }
    ensures stable { IfOk result (λ ranked.
        IsStable (rank_cmp (option_copied by.entry) down) nodes.items ranked.items) }
    ensures exact { IfOk result (λ all.
        all.items ≡ ranked (option_copied by.entry) down nodes.items) }
{
    let mut ranked = nodes;
    ranked.sort_by(|a, b| rank_cmp(by, down, a, b))?;
    Ok(ranked)
}

/// Which of two nodes stands first.
fn rank_cmp(by: Option<&str>, down: bool, a: &Node, b: &Node) -> Ordering
    ensures { result ≡ rank_cmp (option_copied by.entry) down a.now b.now }
{
    match directed_cmp(down, rank_text(by, a), rank_text(by, b)) {
        Ordering::Less => Ordering::Less,
        Ordering::Equal => a.name.as_str().cmp(b.name.as_str()),
        Ordering::Greater => Ordering::Greater,
    }
}

/// Whether two nodes have one rank value.
pub(crate) fn is_same_rank(by: Option<&str>, a: &Node, b: &Node) -> bool
    ensures { result ≡ is_same_rank (option_copied by.entry) a.now b.now }
{
    value_cmp(rank_text(by, a), rank_text(by, b)).is_eq()
}

fn directed_cmp(down: bool, a: &str, b: &str) -> Ordering
    ensures { result ≡ directed_cmp down (number_or_text a.now) (number_or_text b.now) }
{
    if down {
        value_cmp(b, a)
    } else {
        value_cmp(a, b)
    }
}

/// Which of two rank values stands first.
fn value_cmp(a: &str, b: &str) -> Ordering
    ensures { result ≡ value_cmp (number_or_text a.now) (number_or_text b.now) }
{
    match (decimal(a), decimal(b)) {
        (Some(m), Some(n)) => m.cmp(&n),
        (Some(_), None) => Ordering::Less,
        (None, Some(_)) => Ordering::Greater,
        (None, None) => a.cmp(b),
    }
}

/// The text that a node is ranked by.
fn rank_text<'a>(by: Option<&str>, node: &'a Node) -> &'a str
    ensures { result.now ≡ rank_text (option_copied by.entry) node.now }
{
    match by {
        None => node.name.as_str(),
        Some(key) => match node.attribute(key) {
            None => "",
            Some(text) => text.as_str(),
        },
    }
}

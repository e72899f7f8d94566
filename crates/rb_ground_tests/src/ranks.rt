//! The worked examples of ranks, tiers, subsets and bounds.
use rb_causes::{Items, NoMemory, Prop, Text};
use rb_node::Node;
use rb_orch::{bound, generator, pick_subset, rank, tiers};
use std::alloc::{AllocError, Global};
use std::test::Fail;

/// Nodes, the attribute by which they are ranked, whether down, their order, and their tiers.
const RANKED: [(&str, Option<&str>, bool, &str, &str); 4] = [
    // Decimals stand first.
    (
        "a=x b= c=10 d=9",
        Some("rack"),
        false,
        "d c b a ",
        "[0, 1, 2, 3]",
    ),
    // Descending turns the values and not the names.
    (
        "b=7 a=007 c=10 d=x f= e=",
        Some("rack"),
        true,
        "d e f c a b ",
        "[0, 1, 1, 2, 3, 3]",
    ),
    // Without an attribute the name ranks.
    (
        "web= 10= 9= db= 007= 7=",
        None,
        false,
        "007 7 9 10 db web ",
        "[0, 0, 1, 2, 3, 4]",
    ),
    // Tags are no attribute, so all nodes stand by name.
    ("b= 10= 9=", Some("tags"), true, "10 9 b ", "[0, 0, 0]"),
];

/// How many of four nodes are drawn, by which draw, and which.
const DRAWN: [(u32, u64, &str); 4] = [
    (2, 1, "b c "),
    (9, 1, "a b c d "),
    (0, 1, ""),
    (3, 5, "a b d "),
];

/// A node with the attribute `rack`, where its text is not empty.
fn node(alloc: Global, name: &str, rack: &str) -> Result<Node, NoMemory> {
    let mut attrs = Items::new(alloc);
    if !rack.is_empty() {
        let key = Text::of(alloc, "rack")?;
        let text = Text::of(alloc, rack)?;
        attrs.push(Prop { key, text })?;
    }
    Ok(Node {
        name: Text::of(alloc, name)?,
        attrs,
        tags: Items::new(alloc),
    })
}

/// Nodes from words, each a name and the text of `rack` behind a sign of equality.
fn nodes(alloc: Global, words: &str) -> Result<Vec<Node>, NoMemory> {
    let mut all = Vec::new(alloc);
    for word in words.split(' ') {
        let (name, rack) = word.split_once('=').unwrap_or((word, ""));
        all.push(node(alloc, name, rack)?)?;
    }
    Ok(all)
}

/// The names, each with a blank behind it.
fn names(alloc: Global, nodes: &[Node]) -> Result<String, AllocError> {
    let mut all = String::new(alloc);
    for node in nodes {
        all.push_str(node.name.as_str())?;
        all.push(' ')?;
    }
    Ok(all)
}

#[test]
fn nodes_are_ranked_and_each_rank_value_is_a_tier(rt: HostRuntime) -> Result<(), Fail> {
    let alloc = rt.alloc();
    for (words, by, down, ranked_names, numbers) in &RANKED {
        let ranked = rank(nodes(alloc, *words)?, *by, *down)?;
        assert_eq!(rt; names(alloc, ranked.as_slice())?.as_str(), *ranked_names);
        assert!(rt; ranked.len() < 10);
        let tiers = tiers(alloc, ranked.as_slice(), *by)?;
        assert_eq!(rt; format!(in alloc; "{tiers:?}")?.as_str(), *numbers);
    }
    Ok(())
}

#[test]
fn subsets_draws_and_bounds_are_the_worked_ones(rt: HostRuntime) -> Result<(), Fail> {
    let alloc = rt.alloc();
    for (count, draw, wanted) in &DRAWN {
        let picked = pick_subset(alloc, nodes(alloc, "a b c d")?, *count, *draw)?;
        assert_eq!(rt; names(alloc, picked.as_slice())?.as_str(), *wanted);
    }
    assert_eq!(rt; generator(12_345), 1_406_932_606);
    assert_eq!(rt; bound(5, Some(99), 3), 2);
    assert_eq!(rt; bound(1_000, None, 3), 1_000);
    Ok(())
}

//! The inventories of short documents, or their faults.
use rb_inventory::{Inventory, NodeErr, NodeKind, read_nodes};
use rb_node::Node;
use rb_yaml::read_docs;
use std::alloc::{AllocError, Global};
use std::test::Fail;

const TEXTS: [(&str, &str); 8] = [
    (
        "web1:\n  tags: web,prod\nweb2:\n  tags: [web, 'a,b', '', web]\nbare:\n",
        "web1{}[web;prod;]web2{}[web;a,b;]bare{}[]",
    ),
    (
        "a: {name: b, os: linux, nodename: d}\n---\nc:\n  desk-exec: ssh \"-l root\"\n",
        "a{os=linux;}[]c{desk-exec=ssh \"-l root\";}[]",
    ),
    ("a: ~", "a: NotMap"),
    ("a:\n  tags: {b: c}\n  os: []", "a: BadTags"),
    ("a:\n  os: []\n  tags: {b: c}", "a: BadValue"),
    ("a:\n  desk-exec: ssh 'x", "a: BadExec"),
    // In one document the reader of documents refuses the second key.
    ("a:\n---\na:", "a: Twice"),
    ("a:\na:", "no documents"),
];

fn kind_text(kind: NodeKind) -> &'static str {
    match kind {
        NodeKind::NotMap => "NotMap",
        NodeKind::BadTags => "BadTags",
        NodeKind::TooMany => "TooMany",
        NodeKind::BadValue => "BadValue",
        NodeKind::BadExec => "BadExec",
        NodeKind::Twice => "Twice",
    }
}

/// Adds a node: its name, its attributes in braces, its tags in brackets.
fn show_node(out: &mut String, node: &Node) -> Result<(), AllocError> {
    out.push_str(node.name.as_str())?;
    out.push('{')?;
    for prop in node.attrs.as_slice() {
        out.push_str(prop.key.as_str())?;
        out.push('=')?;
        out.push_str(prop.text.as_str())?;
        out.push(';')?;
    }
    out.push_str("}[")?;
    for tag in node.tags.as_slice() {
        out.push_str(tag.as_str())?;
        out.push(';')?;
    }
    out.push(']')
}

fn show(alloc: Global, inventory: &Inventory) -> Result<String, AllocError> {
    let mut out = String::new(alloc);
    for node in inventory.nodes.as_slice() {
        show_node(&mut out, node)?;
    }
    Ok(out)
}

/// The nodes of a text, or its fault with the node.
fn shown(alloc: Global, text: &str) -> Result<String, AllocError> {
    let Ok(docs) = read_docs(alloc, text.as_bytes()) else {
        return String::from_str(alloc, "no documents");
    };
    match read_nodes(alloc, docs.as_slice()) {
        Ok(inventory) => show(alloc, &inventory),
        Err(NodeErr::Fault(fault)) => format!(in alloc;
            "{}: {}",
            fault.node.as_str(),
            kind_text(fault.kind)
        ),
        Err(NodeErr::NoMemory) => String::from_str(alloc, "out of memory"),
    }
}

#[test]
fn nodes_are_listed_or_the_fault_of_one_is_told(rt: HostRuntime) -> Result<(), Fail> {
    for (text, wanted) in &TEXTS {
        assert_eq!(rt; shown(rt.alloc(), *text)?.as_str(), *wanted, "{text}");
    }
    Ok(())
}

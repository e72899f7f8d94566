//! The documents of the demo.
ghost use Rattle.rb_causes.specs.Signs.{line_feed};
ghost use Rattle.rb_demo.specs.Numbers.{draw_at, is_even, tag_by};
ghost use Rattle.rb_demo.specs.Texts.{demo_jobs_text, demo_node_line, demo_nodes_text, policy_text};
ghost use Rattle.std.specs.Prelude.{◌≡◌, ◌≤◌, ◌++◌, ◌∷◌, [], IfOk, OnOk, string_bytes};

use rb_causes::{NoMemory, Text};
use rb_orch::generator;
use std::alloc::Global;

/// What the generator starts at.
pub(crate) const FIRST_DRAW: u32 = 1;

/// The tag says whether the whole part of the draw by this number is even or odd.
const TAG_PART: u32 = 65_536;

/// A resource document of so many nodes (1 to 1,000): `n1`, `n2` and so on, each on a line of its
/// own with its tag.
pub fn nodes_text(alloc: Global, nodes: u32) -> Result<Text, NoMemory>
    requires few { (1 ≤ nodes) × (nodes ≤ 1000) }
    ensures { IfOk result (λ text. text ≡ demo_nodes_text nodes) }
{
    let mut text = String::new(alloc);
    let mut draw = FIRST_DRAW;
    for before in 0..nodes {
        draw = generator(draw);
        put_node(alloc, &mut text, before + 1, draw)?;
    }
    Ok(Text::from_string(text))
}

/// Puts the line of a node behind the text.
fn put_node(alloc: Global, text: &mut String, number: u32, draw: u32) -> Result<(), NoMemory>
    requires drawn { draw ≡ draw_at number }
    ensures { OnOk result (string_bytes text.new
        ≡ string_bytes text.old ++ (demo_node_line number ++ line_feed ∷ [])) }
{
    let tag = tag(draw);
    let line = format!(in alloc; "n{number}: {{tags: {tag}}}\n")?;
    text.push_str(line.as_str())?;
    Ok(())
}

/// The tag of a node with this draw.
fn tag(draw: u32) -> &'static str
    ensures { result.now ≡ tag_by (is_even draw) }
{
    if is_even(draw) { "even" } else { "odd" }
}

/// Whether the whole part of draw / 65,536 is even.
pub(crate) fn is_even(draw: u32) -> bool
    ensures { result ≡ is_even draw }
{
    draw / TAG_PART % 2 == 0
}

/// Two policies in the project `demo`: ann runs all jobs and the nodes with the tag `even`, bob
/// runs all jobs and no node.
pub fn policy_text() -> &'static str
    ensures { result.now ≡ policy_text }
{
    "description: ann runs all jobs on even nodes
context:
  project: demo
for:
  job:
  - allow: [read, run]
  node:
  - contains:
      tags: even
    allow: [read, run]
by:
  username: ann
---
description: bob runs all jobs, but on no node
context:
  project: demo
for:
  job:
  - allow: [read, run]
by:
  username: bob
"
}

/// Three jobs, one for each strategy: each runs two steps on all nodes, four nodes at a time.
pub fn jobs_text() -> &'static str
    ensures { result.now ≡ demo_jobs_text }
{
    "- id: demo-1
  name: node-first
  nodefilters:
    filter: .*
    dispatch:
      threadcount: 4
  sequence:
    strategy: node-first
    commands:
    - exec: echo first ${node.name}
    - exec: echo second ${node.name}
- id: demo-2
  name: sequential
  nodefilters:
    filter: .*
    dispatch:
      threadcount: 4
  sequence:
    strategy: sequential
    commands:
    - exec: echo first ${node.name}
    - exec: echo second ${node.name}
- id: demo-3
  name: parallel
  nodefilters:
    filter: .*
    dispatch:
      threadcount: 4
  sequence:
    strategy: parallel
    commands:
    - exec: echo first ${node.name}
    - exec: echo second ${node.name}
"
}

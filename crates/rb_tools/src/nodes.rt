//! `check nodes`: the nodes of a resource file, counted or selected by a filter.
ghost use Rattle.rb_causes.specs.Sinks.{StopsAtFault};
ghost use Rattle.rb_node.specs.declared.node.Node.{Node};
ghost use Rattle.rb_node.specs.Filters.{IsReadFilter};
ghost use Rattle.rb_tools.specs.Nodes.{file_nodes, nodes_in, is_no_map, wants_map, IsFaultOfNodes, filtered_nodes, name_line, count_text, choice_text, nodes_text, IsFilterFault, ReadsNodes};
ghost use Rattle.rb_tools.specs.Printing.{Checks};
ghost use Rattle.rb_yaml.specs.Tree.{docs_tree};
ghost use Rattle.std.specs.List.{flat_map};
ghost use Rattle.std.specs.Prelude.{◌≡◌, ◌<◌, ◌≤◌, ◌⊎◌, Ok, Err, Some, None, IfOk, IfErr, IsErrOf, length, map, string_bytes};

use crate::printing::give;
use crate::refusal::ToolRefusal;
use rb_causes::{NoMemory, Shelf, Sink, Text};
use rb_command::fetch_or_tell;
use rb_inventory::{Inventory, NodeErr, NodeKind, read_nodes};
use rb_node::{Filter, FilterErr, Node};
use rb_yaml::{Doc, YamlErr, read_docs};
use std::alloc::{AllocError, Global};

/// Which nodes are printed: those that the filter selects, or without one how many there are.
#[derive(Drop)]
pub(crate) struct NodeChoice {
    pub filter: Option<Text>,
    /// Whether the filter's exclude clauses go first.
    pub exclude_first: bool,
}

/// Fetches the file, and prints its nodes as the choice asks.
pub(crate) fn check_nodes<F: Shelf, O: Sink>(
    alloc: Global,
    file: &str,
    choice: &NodeChoice,
    shelf: &mut F,
    out: &mut O,
) -> u8
    ensures check { Checks (ReadsNodes choice.now) (F.files shelf.old) file.now
        (F.faults shelf.old) (F.faults shelf.new) result (O.shown out.old) (O.shown out.new) }
    ensures statuses { (result ≡ 0) ⊎ (result ≡ 3) ⊎ (result ≡ 4) ⊎ (result ≡ 7) ⊎ (result ≡ 9) }
    ensures out { StopsAtFault (O.shown out.old) (O.shown out.new) }
    ensures files { F.files shelf.new ≡ F.files shelf.old }
    ensures faults { F.faults shelf.old ≤ F.faults shelf.new }
{
    match fetch_or_tell(alloc, file, shelf, out) {
        Ok(bytes) => give(out, file, nodes_text(alloc, bytes.as_slice(), choice)),
        Err(status) => status,
    }
}

// What is printed of the file's bytes. The file is read first, then the filter.
fn nodes_text(alloc: Global, bytes: &[u8], choice: &NodeChoice) -> Result<String, ToolRefusal>
    ensures ok { IfOk result (λ text. ReadsNodes choice.now bytes.now (Ok (string_bytes text))) }
    ensures refused { IfErr result (λ refusal. ReadsNodes choice.now bytes.now (Err refusal)) }
{
    let inventory = read_inventory(alloc, bytes)?;
    chosen_text(alloc, inventory.nodes.as_slice(), choice)
}

// What is printed of the nodes.
fn chosen_text(alloc: Global, nodes: &[Node], choice: &NodeChoice) -> Result<String, ToolRefusal>
    ensures read { IfOk result (λ _. IsReadFilter choice.now.filter) }
    ensures text { IfOk result (λ text. string_bytes text ≡ choice_text choice.now nodes.now) }
    ensures refused { IfErr result (IsFilterFault choice.now.filter) }
{
    match &choice.filter {
        Some(filter) => selected_text(alloc, nodes, filter.as_str(), choice.exclude_first),
        None => Ok(count_text(alloc, nodes)?),
    }
}

fn count_text(alloc: Global, nodes: &[Node]) -> Result<String, AllocError>
    ensures { IfOk result (λ text. string_bytes text ≡ count_text nodes.now) }
{
    let count = nodes.len();
    format!(in alloc; "{count} nodes\n")
}

// The names of the nodes that the filter of this text selects.
fn selected_text(
    alloc: Global,
    nodes: &[Node],
    filter: &str,
    exclude_first: bool,
) -> Result<String, ToolRefusal>
    ensures read { IfOk result (λ _. IsReadFilter (Some filter.now)) }
    ensures text { IfOk result (λ text.
        string_bytes text ≡ nodes_text (Some filter.now) exclude_first nodes.now) }
    ensures long { 1024 < length filter.now
        → IsErrOf result (ToolRefusal.Filter FilterErr.TooLong) }
    ensures refused { IfErr result (IsFilterFault (Some filter.now)) }
{
    match Filter::read(alloc, filter) {
        Ok(filter) => Ok(names_of(alloc, nodes, &filter, exclude_first)?),
        Err(FilterErr::NoMemory) => Err(ToolRefusal::NoMemory),
        Err(error) => Err(ToolRefusal::Filter(error)),
    }
}

// The names of the nodes that the filter selects, a line each.
fn names_of(
    alloc: Global,
    nodes: &[Node],
    filter: &Filter,
    exclude_first: bool,
) -> Result<String, NoMemory>
    ensures { IfOk result (λ text.
        string_bytes text ≡ flat_map name_line
        (filtered_nodes filter.now exclude_first nodes.now)) }
{
    let chosen = filter.chosen(alloc, nodes, exclude_first)?;
    lines_of(alloc, chosen.as_slice())
}

// The names of the nodes, a line each.
fn lines_of(alloc: Global, nodes: &[&Node]) -> Result<String, NoMemory>
    ensures { IfOk result (λ text.
        string_bytes text ≡ flat_map name_line (map (λ node. node.now) nodes.now)) }
{
    let mut text = String::new(alloc);
    for node in nodes {
        text.push_str(node.name.as_str())?;
        text.push_str("\n")?;
    }
    Ok(text)
}

// The inventory of resource documents.
fn read_inventory(alloc: Global, bytes: &[u8]) -> Result<Inventory, ToolRefusal>
    ensures ok { IfOk result (λ inventory. file_nodes bytes.now ≡ Ok inventory) }
    ensures fault { IfErr result (IsFaultOfNodes (file_nodes bytes.now)) }
{
    match read_docs(alloc, bytes) {
        Ok(docs) => inventory_in(alloc, docs.as_slice()),
        Err(YamlErr::Fault(fault)) => Err(ToolRefusal::Yaml(fault)),
        Err(YamlErr::NoMemory) => Err(ToolRefusal::NoMemory),
    }
}

fn inventory_in(alloc: Global, docs: &[Doc]) -> Result<Inventory, ToolRefusal>
    ensures ok { IfOk result (λ inventory. nodes_in (docs_tree docs.now) ≡ Ok inventory) }
    ensures fault { IfErr result (IsFaultOfNodes (nodes_in (docs_tree docs.now))) }
{
    match read_nodes(alloc, docs) {
        Ok(inventory) => Ok(inventory),
        Err(NodeErr::Fault(fault)) => Err(ToolRefusal::Node(fault)),
        Err(NodeErr::NoMemory) => Err(ToolRefusal::NoMemory),
    }
}

/// Whether the file is refused since a document of it is no map of node names. A node of the empty
/// name that is no map is told so too.
pub fn is_no_map(alloc: Global, bytes: &[u8]) -> Result<bool, NoMemory>
    ensures { IfOk result (λ no_map. no_map ≡ is_no_map (file_nodes bytes.now)) }
{
    match read_inventory(alloc, bytes) {
        Ok(_) => Ok(false),
        Err(ToolRefusal::Yaml(_)) => Ok(false),
        Err(ToolRefusal::Node(fault)) => {
            Ok(fault.node.as_str().is_empty() && wants_map(fault.kind))
        }
        Err(ToolRefusal::Policy(_)) => Ok(false),
        Err(ToolRefusal::Job(_)) => Ok(false),
        Err(ToolRefusal::Filter(_)) => Ok(false),
        Err(ToolRefusal::Crontab(_)) => Ok(false),
        Err(ToolRefusal::Zone) => Ok(false),
        Err(ToolRefusal::NoMemory) => Err(NoMemory),
    }
}

fn wants_map(kind: NodeKind) -> bool
    ensures { result ≡ wants_map kind }
{
    matches!(kind, NodeKind::NotMap)
}

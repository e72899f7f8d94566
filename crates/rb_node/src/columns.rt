//! What clauses tell of many nodes: value by value, so that each pattern is built once for all.
ghost use Rattle.rb_node.specs.Columns.{parts_hold, one_holds, is_included, is_excluded};
ghost use Rattle.rb_node.specs.Selection.{shown, clause_holds, included, excluded, selected};
ghost use Rattle.std.specs.List.{list_all, list_any};
ghost use Rattle.std.specs.Prelude.{◌≡◌, IfOk, map, true, false};

use crate::clause::FilterClause;
use crate::node::Node;
use crate::selecting::{has_exclude, has_no_include};
use rb_causes::{Items, NoMemory, Text};
use rb_text::{Value, both_true, first_true_alone, one_true};
use std::alloc::Global;

/// For each node whether the clauses select it.
pub fn selected_of_each(
    alloc: Global,
    clauses: &[FilterClause],
    exclude_first: bool,
    nodes: &[Node],
) -> Result<Vec<bool>, NoMemory>
    ensures { IfOk result (λ marks.
        marks.items ≡ map (selected clauses.now exclude_first) nodes.now) }
{
    let included = included_of_each(alloc, clauses, nodes)?;
    if exclude_first || has_no_include(clauses) {
        let excluded = excluded_of_each(alloc, clauses, nodes)?;
        return first_true_alone(alloc, included.as_slice(), excluded.as_slice());
    }
    Ok(included)
}

/// For each node whether it is included.
fn included_of_each(
    alloc: Global,
    clauses: &[FilterClause],
    nodes: &[Node],
) -> Result<Vec<bool>, NoMemory>
    ensures { IfOk result (λ marks. marks.items ≡ map (included clauses.now) nodes.now) }
{
    if has_no_include(clauses) {
        return same_of_each(alloc, has_exclude(clauses), nodes);
    }
    includes_hold_of_each(alloc, clauses, nodes)
}

/// For each node whether all include clauses hold.
fn includes_hold_of_each(
    alloc: Global,
    clauses: &[FilterClause],
    nodes: &[Node],
) -> Result<Vec<bool>, NoMemory>
    ensures { IfOk result (λ marks.
        marks.items ≡ map (λ node. list_all (is_included node) clauses.now) nodes.now) }
{
    let mut marks = same_of_each(alloc, true, nodes)?;
    for clause in clauses {
        let others = included_by(alloc, clause, nodes)?;
        marks = both_true(alloc, marks.as_slice(), others.as_slice())?;
    }
    Ok(marks)
}

/// For each node whether some exclude clause holds.
fn excluded_of_each(
    alloc: Global,
    clauses: &[FilterClause],
    nodes: &[Node],
) -> Result<Vec<bool>, NoMemory>
    ensures { IfOk result (λ marks.
        marks.items ≡ map (λ node. list_any (is_excluded node) clauses.now) nodes.now) }
{
    let mut marks = same_of_each(alloc, false, nodes)?;
    for clause in clauses {
        let others = excluded_by(alloc, clause, nodes)?;
        marks = one_true(alloc, marks.as_slice(), others.as_slice())?;
    }
    Ok(marks)
}

/// For each node whether the clause excludes others, or holds.
fn included_by(alloc: Global, clause: &FilterClause, nodes: &[Node]) -> Result<Vec<bool>, NoMemory>
    ensures { IfOk result (λ marks.
        marks.items ≡ map (λ node. is_included node clause.now) nodes.now) }
{
    if clause.exclude {
        return same_of_each(alloc, true, nodes);
    }
    clause_holds_of_each(alloc, clause, nodes)
}

/// For each node whether the clause excludes it.
fn excluded_by(alloc: Global, clause: &FilterClause, nodes: &[Node]) -> Result<Vec<bool>, NoMemory>
    ensures { IfOk result (λ marks.
        marks.items ≡ map (λ node. is_excluded node clause.now) nodes.now) }
{
    if clause.exclude {
        return clause_holds_of_each(alloc, clause, nodes);
    }
    same_of_each(alloc, false, nodes)
}

/// For each node whether the clause holds.
fn clause_holds_of_each(
    alloc: Global,
    clause: &FilterClause,
    nodes: &[Node],
) -> Result<Vec<bool>, NoMemory>
    ensures { IfOk result (λ marks.
        marks.items ≡ map (λ node. clause_holds node clause.now) nodes.now) }
{
    let lists = shown_by_each(alloc, clause.attr.as_str(), nodes)?;
    one_holds_of_each(alloc, clause.alternatives.as_slice(), lists.as_slice())
}

/// The texts that each node shows under the name of an attribute.
fn shown_by_each<'a>(
    alloc: Global,
    attr: &str,
    nodes: &'a [Node],
) -> Result<Vec<&'a [Text]>, NoMemory>
    ensures { IfOk result (λ lists.
        map (λ texts. texts.now) lists.items ≡ map (λ node. shown node attr.now) nodes.now) }
{
    let mut lists = Vec::with_capacity(alloc, nodes.len())?;
    for node in nodes {
        lists.push(node.shown(attr))?;
    }
    Ok(lists)
}

/// For each list of texts whether all parts of one of the alternatives hold.
fn one_holds_of_each(
    alloc: Global,
    alternatives: &[Items<Value>],
    lists: &[&[Text]],
) -> Result<Vec<bool>, NoMemory>
    ensures { IfOk result (λ marks. marks.items
        ≡ map (one_holds alternatives.now) (map (λ texts. texts.now) lists.now)) }
{
    let mut marks = same_of_each(alloc, false, lists)?;
    for parts in alternatives {
        let others = parts_hold_of_each(alloc, parts.as_slice(), lists)?;
        marks = one_true(alloc, marks.as_slice(), others.as_slice())?;
    }
    Ok(marks)
}

/// For each list of texts whether each of these parts holds of one of its texts.
fn parts_hold_of_each(
    alloc: Global,
    parts: &[Value],
    lists: &[&[Text]],
) -> Result<Vec<bool>, NoMemory>
    ensures { IfOk result (λ marks. marks.items
        ≡ map (parts_hold parts.now) (map (λ texts. texts.now) lists.now)) }
{
    let mut marks = same_of_each(alloc, true, lists)?;
    for part in parts {
        let others = part.holds_of_each(alloc, lists)?;
        marks = both_true(alloc, marks.as_slice(), others.as_slice())?;
    }
    Ok(marks)
}

/// This mark for each.
fn same_of_each<T>(alloc: Global, mark: bool, items: &[T]) -> Result<Vec<bool>, NoMemory>
    ensures { IfOk result (λ marks. marks.items ≡ map (λ item. mark) items.now) }
{
    Ok(items.iter().map(|_| mark).collect(alloc)?)
}

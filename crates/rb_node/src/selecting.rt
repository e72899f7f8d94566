ghost use Rattle.rb_node.specs.Selection.{clause_holds, includes, excludes, no_clause, included, excluded, selected, is_plain_clause};
ghost use Rattle.std.specs.List.{list_all};
ghost use Rattle.std.specs.Prelude.{◌≡◌, IfOk, IsOk, true, not};

use crate::clause::FilterClause;
use crate::node::Node;
use rb_causes::NoMemory;
use std::alloc::Global;

/// Whether the clauses select the node.
pub fn selected(
    alloc: Global,
    clauses: &[FilterClause],
    exclude_first: bool,
    node: &Node,
) -> Result<bool, NoMemory>
    ensures found { IfOk result (λ yes. yes ≡ selected clauses.now exclude_first node.now) }
    ensures memory { list_all is_plain_clause clauses.now ≡ true → IsOk result }
{
    if !included(alloc, clauses, node)? {
        return Ok(false);
    }
    if exclude_first || has_no_include(clauses) {
        let excluded = excluded(alloc, clauses, node)?;
        return Ok(!excluded);
    }
    Ok(true)
}

/// Whether the include clauses select the node, or in their place that there is an exclude clause.
fn included(alloc: Global, clauses: &[FilterClause], node: &Node) -> Result<bool, NoMemory>
    ensures found { IfOk result (λ yes. yes ≡ included clauses.now node.now) }
    ensures memory { list_all is_plain_clause clauses.now ≡ true → IsOk result }
{
    if has_no_include(clauses) {
        return Ok(has_exclude(clauses));
    }
    all_includes_hold(alloc, clauses, node)
}

fn all_includes_hold(alloc: Global, clauses: &[FilterClause], node: &Node) -> Result<bool, NoMemory>
    ensures found { IfOk result (λ yes.
        yes ≡ list_all (clause_holds node.now) (includes clauses.now)) }
    ensures memory { list_all is_plain_clause clauses.now ≡ true → IsOk result }
{
    for clause in clauses {
        if !clause.exclude {
            if !clause.holds(alloc, node)? {
                return Ok(false);
            }
        }
    }
    Ok(true)
}

/// Whether some exclude clause holds for the node.
fn excluded(alloc: Global, clauses: &[FilterClause], node: &Node) -> Result<bool, NoMemory>
    ensures found { IfOk result (λ yes. yes ≡ excluded clauses.now node.now) }
    ensures memory { list_all is_plain_clause clauses.now ≡ true → IsOk result }
{
    for clause in clauses {
        if clause.exclude {
            if clause.holds(alloc, node)? {
                return Ok(true);
            }
        }
    }
    Ok(false)
}

pub fn has_no_include(clauses: &[FilterClause]) -> bool
    ensures { result ≡ no_clause (includes clauses.now) }
{
    for clause in clauses {
        if !clause.exclude {
            return false;
        }
    }
    true
}

pub fn has_exclude(clauses: &[FilterClause]) -> bool
    ensures { result ≡ not (no_clause (excludes clauses.now)) }
{
    for clause in clauses {
        if clause.exclude {
            return true;
        }
    }
    false
}

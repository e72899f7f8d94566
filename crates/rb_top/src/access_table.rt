ghost use Rattle.rb_top.specs.Access.{policies_of};
ghost use Rattle.rb_top.specs.Table.{told, ruling_on, ruling_of, ruled, Tells};
ghost use Rattle.rb_top.specs.declared.script.AccessLine.{AccessLine as Line};
ghost use Rattle.std.specs.Prelude.{◌≡◌, ◌<◌, ◌^◌, ◌∷◌, ◌++◌, [], ℕ, List, length, bytes_eq, IfOk, OnOk, if◌then◌else◌};

use crate::script::AccessLine;
use rb_acl::{Clause, Decision};
use rb_causes::{NoMemory, Text};
use std::alloc::Global;
use std::collections::BTreeMap;

/// What the access lines say of each user on each node, so that no line is gone through again for a
/// run.
#[derive(Drop)]
pub(crate) struct AccessTable {
    users: BTreeMap<String, NodeRulings>,
}

/// What the lines of one user say of each node; of a node that is missing none speaks.
#[derive(Drop)]
pub(crate) struct NodeRulings {
    nodes: BTreeMap<String, Decision>,
}

impl AccessTable {
    /// The table of these lines.
    pub(crate) fn of(alloc: Global, access: &[AccessLine]) -> Result<AccessTable, NoMemory>
        requires { length access.now < 2 ^ 32 }
        ensures { IfOk result (Tells (policies_of access.now)) }
    {
        let mut table = AccessTable {
            users: BTreeMap::new(alloc),
        };
        for (place, line) in access.iter().enumerate() {
            table.note(alloc, line, place as u32)?;
        }
        Ok(table)
    }

    /// Notes one line more, which stands behind as many others.
    fn note(&mut self, alloc: Global, line: &AccessLine, place: u32) -> Result<(), NoMemory>
        ensures { OnOk result ((lines : List Line) → Tells (policies_of lines) self.old →
            place ≡ length lines → Tells (policies_of (lines ++ line.now ∷ [])) self.new) }
    {
        let mut rulings = NodeRulings::or_none(alloc, self.users.remove(line.user.as_str()));
        rulings.note(alloc, &line.node, line.denies, place)?;
        let user = String::from_str(alloc, line.user.as_str())?;
        let _none = self.users.insert(user, rulings)?;
        Ok(())
    }

    /// The decision on the user's running the node.
    pub(crate) fn decision_on(&self, user: &Text, node: &Text) -> Decision
        ensures { result ≡ told self.now user.now node.now }
    {
        match self.users.get(user.as_str()) {
            Some(rulings) => rulings.on(node),
            None => Decision::NoneAllows,
        }
    }
}

impl NodeRulings {
    /// Those that were found, or none.
    fn or_none(alloc: Global, found: Option<NodeRulings>) -> NodeRulings
        ensures { (node : List ℕ) → ruling_on result node ≡ ruling_of found node }
    {
        match found {
            Some(rulings) => rulings,
            None => NodeRulings {
                nodes: BTreeMap::new(alloc),
            },
        }
    }

    /// The decision on the node.
    fn on(&self, node: &Text) -> Decision
        ensures { result ≡ ruling_on self.now node.now }
    {
        match self.nodes.get(node.as_str()) {
            Some(decision) => *decision,
            None => Decision::NoneAllows,
        }
    }

    /// Notes what the line at this place says of the node.
    fn note(&mut self, alloc: Global, node: &Text, denies: bool, place: u32) -> Result<(), NoMemory>
        ensures { OnOk result ((other : List ℕ) → ruling_on self.new other ≡
            (if bytes_eq node.now other then ruled denies place (ruling_on self.old node.now)
            else ruling_on self.old other)) }
    {
        let decision = ruled(denies, place, self.on(node));
        let node = String::from_str(alloc, node.as_str())?;
        let _old = self.nodes.insert(node, decision)?;
        Ok(())
    }
}

// The decision after a line more: the first line that denies decides, else the first that allows.
fn ruled(denies: bool, place: u32, before: Decision) -> Decision
    ensures { result ≡ ruled denies place before }
{
    let clause = Clause {
        doc: place,
        type_index: 0,
        rule: 0,
    };
    match (before, denies) {
        (Decision::Denied(_), _) => before,
        (_, true) => Decision::Denied(clause),
        (Decision::Allowed(_), false) => before,
        (Decision::NoneAllows, false) => Decision::Allowed(clause),
    }
}

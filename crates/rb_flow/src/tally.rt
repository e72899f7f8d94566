ghost use Rattle.rb_flow.specs.Kept.{node_withdrawn};
ghost use Rattle.rb_flow.specs.Tally.{IsTally, IsTallyOf, CanStand, HasStates, is_idle};
ghost use Rattle.std.specs.Prelude.{◌≡◌, ◌+◌, ◌*◌, ◌<◌, true, length, map, get_or, set, IfOk};
ghost use Rattle.std.specs.List.{list_any, list_all};
ghost use Rattle.rb_marks.specs.First.{is_good};
ghost use Rattle.rb_marks.specs.Units.{Outline};

use crate::group_state::GroupState;
use crate::recount::{is_bad, is_good, put_group, put_place, put_work, recount};
use crate::unit_state::UnitState;
use rb_causes::NoMemory;
use std::alloc::Global;

/// How each unit stands, with what is counted of all of them. The units lie group by group, and in
/// a group node by node.
#[derive(Drop)]
pub(crate) struct Tally {
    pub nodes: usize,
    pub states: Vec<UnitState>,
    /// Where units are in work, ascending.
    pub places: Vec<usize>,
    /// For each node how many of its units are in work.
    pub works: Vec<usize>,
    /// How many nodes have a unit in work.
    pub busy: usize,
    /// How many units are bad, good, and have an open leaf.
    pub bad: usize,
    pub good: usize,
    pub running: usize,
    pub groups: Vec<GroupState>,
}

impl Tally {
    /// A tally of idle units, of so many groups with so many nodes each.
    pub(crate) fn make(
        alloc: Global,
        nodes: usize,
        groups: usize,
        states: Vec<UnitState>,
    ) -> Result<Tally, NoMemory>
        requires size { length states.items ≡ groups * nodes }
        requires idle { list_all is_idle states.items ≡ true }
        ensures is { IfOk result IsTally }
        ensures states { IfOk result (λ t. t.states.items ≡ states.items) }
        ensures nodes { IfOk result (λ t. t.nodes ≡ nodes) }
        ensures groups { IfOk result (λ t. length t.groups.items ≡ groups) }
    {
        let idle = GroupState { lead: 0, bad: 0 };
        Ok(Tally {
            nodes,
            places: Vec::with_capacity(alloc, states.len())?,
            works: vec![in alloc; 0; nodes]?,
            busy: 0,
            bad: 0,
            good: 0,
            running: 0,
            groups: vec![in alloc; idle; groups]?,
            states,
        })
    }

    /// How the unit of this node stands in this group.
    pub(crate) fn state_at(&self, group: usize, node: u32) -> UnitState
        requires size { length self.now.states.items
            ≡ length self.now.groups.items * self.now.nodes }
        requires group { group < length self.now.groups.items }
        requires node { node < self.now.nodes }
        ensures { result ≡ get_or self.now.states.items (group * self.now.nodes + node) result }
    {
        self.states[group * self.nodes + node as usize]
    }

    /// Puts how the unit of a node in this group stands now.
    pub(crate) fn put(&mut self, group: usize, state: UnitState)
        requires is { IsTally self.old }
        requires group { group < length self.old.groups.items }
        requires node { state.unit.node < self.old.nodes }
        requires stands { CanStand
            self.old.states.items (group * self.old.nodes + state.unit.node) state }
        ensures is { IsTally self.new }
        ensures states { HasStates self.old self.new
            (set self.old.states.items (group * self.old.nodes + state.unit.node) state) }
    {
        let node = state.unit.node as usize;
        let start = group * self.nodes;
        let old = self.states[start + node];
        self.states[start + node] = state;
        self.bad = recount(self.bad, is_bad(old.outcome), is_bad(state.outcome));
        self.good = recount(self.good, is_good(old.outcome), is_good(state.outcome));
        self.running = recount(self.running, old.running, state.running);
        let states = self.states.as_slice();
        put_place(&mut self.places, states, start + node, old);
        self.busy = put_work(&mut self.works, self.busy, states, start + node, old);
        let units = &states[start..start + self.nodes];
        self.groups[group] = put_group(self.groups[group], units, node, old);
    }

    /// The node is withdrawn: so stand its units, one in each group.
    pub(crate) fn withdraw(&mut self, node: u32)
        requires is { IsTally self.old }
        requires of { (p : Outline) × IsTallyOf p self.old }
        requires node { node < self.old.nodes }
        ensures is { IsTally self.new }
        ensures states { HasStates self.old self.new
            (map (node_withdrawn node) self.old.states.items) }
    {
        for group in 0..self.groups.len() {
            let state = self.state_at(group, node);
            self.put(
                group,
                UnitState {
                    withdrawn: true,
                    ..state
                },
            );
        }
    }

    /// Whether some unit has an open leaf.
    pub(crate) fn is_running(&self) -> bool
        requires { IsTally self.now }
        ensures { result ≡ list_any (λ s. s.running) self.now.states.items }
    {
        self.running > 0
    }

    /// Whether all units are good.
    pub(crate) fn all_good(&self) -> bool
        requires { IsTally self.now }
        ensures { result ≡ list_all (λ s. is_good s.outcome) self.now.states.items }
    {
        self.good == self.states.len()
    }
}

//! Letting go of what is built of patterns where there is no room for it: what matches stays.
ghost use Rattle.std.specs.Prelude.{◌≡◌};

use crate::policy::{ByRule, Policies, Policy, Rule, Scope, Test, TypeRules};
use rb_causes::Items;
use rb_text::{Pattern, Room};
use std::alloc::Global;
use std::mem;

/// What may hold built patterns.
trait Fit {
    fn fit(&mut self, alloc: Global, room: &mut Room)
        ensures { self.new ≡ self.old };
}

/// Lets go of what each of these holds and has no room.
fn fit_each<T: Fit>(alloc: Global, items: &mut Items<T>, room: &mut Room)
where
    T: Drop,
    ensures { items.new ≡ items.old }
{
    let mut kept = mem::replace(items, Items::new(alloc)).into_vec();
    for item in kept.iter_mut() {
        item.fit(alloc, room);
    }
    *items = Items::of(kept);
}

impl Fit for Pattern {
    fn fit(&mut self, _alloc: Global, room: &mut Room) {
        self.fit_in(room);
    }
}

impl Fit for Scope {
    fn fit(&mut self, _alloc: Global, room: &mut Room) {
        match self {
            Scope::Project(value) => value.fit_in(room),
            Scope::Application(value) => value.fit_in(room),
        }
    }
}

impl Fit for ByRule {
    fn fit(&mut self, _alloc: Global, room: &mut Room) {
        match self {
            ByRule::User(value) => value.fit_in(room),
            ByRule::Group(value) => value.fit_in(room),
        }
    }
}

impl Fit for Test {
    fn fit(&mut self, alloc: Global, room: &mut Room) {
        match self {
            Test::Match { key: _, patterns } => fit_each(alloc, patterns, room),
            Test::Equals { key: _, texts: _ } => {}
            Test::Contains { key: _, texts: _ } => {}
            Test::Subset { key: _, texts: _ } => {}
        }
    }
}

impl Fit for Rule {
    fn fit(&mut self, alloc: Global, room: &mut Room) {
        fit_each(alloc, &mut self.tests, room);
    }
}

impl Fit for TypeRules {
    fn fit(&mut self, alloc: Global, room: &mut Room) {
        fit_each(alloc, &mut self.rules, room);
    }
}

impl Fit for Policy {
    fn fit(&mut self, alloc: Global, room: &mut Room) {
        self.scope.fit(alloc, room);
        fit_each(alloc, &mut self.by, room);
        fit_each(alloc, &mut self.types, room);
    }
}

impl Policies {
    /// Lets go of built patterns for which there is no room. What the policies decide stays.
    pub fn fit_in(&mut self, alloc: Global, room: &mut Room)
        ensures { self.new ≡ self.old }
    {
        fit_each(alloc, &mut self.docs, room);
    }
}

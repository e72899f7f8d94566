//! The places of the rules for one caller, in one context, on one type of resources.
ghost use Rattle.rb_acl.specs.Indexing.{with_place, put_rules, put_types, put_docs};
ghost use Rattle.rb_acl.specs.Keys.{index_key};
ghost use Rattle.rb_acl.specs.Numbering.{AreNumbered, IsPolicyNumbered, IsRulesNumbered};
ghost use Rattle.rb_acl.specs.Applying.{speaks_of};
ghost use Rattle.std.specs.Prelude.{◌≡◌, [], IfOk, OnOk, bytes_eq, if◌then◌else◌};

use crate::applying::speaks_of;
use crate::keyed::Keyed;
use crate::keys::{Key, index_key};
use crate::policy::{Caller, Clause, Context, Policies, Policy, Rule, TypeRules};
use rb_causes::{Items, NoMemory};
use std::alloc::Global;

/// Places of rules that ask for one nodename, of others that ask for one name, and of all others.
#[derive(Drop)]
pub struct RuleIndex {
    pub nodenames: Items<Keyed>,
    pub names: Items<Keyed>,
    pub rest: Items<Clause>,
}

impl RuleIndex {
    fn new(alloc: Global) -> RuleIndex
        ensures { result ≡ record { nodenames = []; names = []; rest = [] } }
    {
        RuleIndex {
            nodenames: Items::new(alloc),
            names: Items::new(alloc),
            rest: Items::new(alloc),
        }
    }

    fn with_place(&mut self, key: Key, place: Clause) -> Result<(), NoMemory>
        ensures { OnOk result (self.new ≡ with_place key place self.old) }
    {
        match key {
            Key::Nodename(text) => self.nodenames.push(Keyed { text, place }),
            Key::Name(text) => self.names.push(Keyed { text, place }),
            Key::Neither => self.rest.push(place),
        }
    }

    fn put_rule(&mut self, alloc: Global, rule: &Rule, place: Clause) -> Result<(), NoMemory>
        ensures { OnOk result (self.new ≡ with_place (index_key rule.now.tests) place self.old) }
    {
        let key = index_key(alloc, rule)?;
        self.with_place(key, place)
    }

    fn put_rules(
        &mut self,
        alloc: Global,
        rules: &TypeRules,
        doc: u32,
        type_index: u32,
    ) -> Result<(), NoMemory>
        requires { IsRulesNumbered rules.now }
        ensures { OnOk result (self.new ≡ put_rules doc type_index 0 rules.now.rules self.old) }
    {
        for (rule, wanted) in rules.rules.as_slice().iter().enumerate() {
            let place = Clause {
                doc,
                type_index,
                rule: rule as u32,
            };
            self.put_rule(alloc, wanted, place)?;
        }
        Ok(())
    }

    fn put_type(
        &mut self,
        alloc: Global,
        type_name: &str,
        rules: &TypeRules,
        doc: u32,
        type_index: u32,
    ) -> Result<(), NoMemory>
        requires { IsRulesNumbered rules.now }
        ensures { OnOk result (self.new ≡ (if bytes_eq rules.now.name type_name.now
            then put_rules doc type_index 0 rules.now.rules self.old else self.old)) }
    {
        if rules.name.as_str() == type_name {
            return self.put_rules(alloc, rules, doc, type_index);
        }
        Ok(())
    }

    fn put_types(
        &mut self,
        alloc: Global,
        type_name: &str,
        policy: &Policy,
        doc: u32,
    ) -> Result<(), NoMemory>
        requires { IsPolicyNumbered policy.now }
        ensures { OnOk result
            (self.new ≡ put_types type_name.now doc 0 policy.now.types self.old) }
    {
        for (type_index, rules) in policy.types.as_slice().iter().enumerate() {
            self.put_type(alloc, type_name, rules, doc, type_index as u32)?;
        }
        Ok(())
    }

    fn put_policy(
        &mut self,
        alloc: Global,
        caller: &Caller,
        context: &Context,
        type_name: &str,
        policy: &Policy,
        doc: u32,
    ) -> Result<(), NoMemory>
        requires { IsPolicyNumbered policy.now }
        ensures { OnOk result (self.new ≡ (if speaks_of policy.now caller.now context.now
            then put_types type_name.now doc 0 policy.now.types self.old else self.old)) }
    {
        if speaks_of(alloc, policy, caller, context)? {
            return self.put_types(alloc, type_name, policy, doc);
        }
        Ok(())
    }

    /// Those of these policies, in the order of their places.
    pub fn gather(
        alloc: Global,
        policies: &Policies,
        caller: &Caller,
        context: &Context,
        type_name: &str,
    ) -> Result<RuleIndex, NoMemory>
        requires { AreNumbered policies.now }
        ensures { IfOk result (λ index. index
            ≡ put_docs caller.now context.now type_name.now 0 policies.now.docs
            (record { nodenames = []; names = []; rest = [] })) }
    {
        let mut index = RuleIndex::new(alloc);
        for (doc, policy) in policies.docs.as_slice().iter().enumerate() {
            index.put_policy(alloc, caller, context, type_name, policy, doc as u32)?;
        }
        Ok(index)
    }
}

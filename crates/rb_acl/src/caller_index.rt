ghost use Rattle.rb_acl.specs.Applying.{question_of};
ghost use Rattle.rb_acl.specs.Deciding.{decision_of};
ghost use Rattle.rb_acl.specs.Indexing.{IsIndexOf, keyed_for, told_for};
ghost use Rattle.rb_acl.specs.Naming.{IsNamed};
ghost use Rattle.rb_acl.specs.Numbering.{AreNumbered};
ghost use Rattle.rb_acl.specs.Plain.{are_plain};
ghost use Rattle.rb_acl.specs.Seeking.{place_decides, earliest};
ghost use Rattle.std.specs.Prelude.{◌≡◌, ℕ, List, All, map, true, IfOk, IsOk, None};

use crate::effect::Effect;
use crate::keyed::{sort_by_text, under};
use crate::policy::{Caller, Clause, Context, Decision, Policies, Resource};
use crate::rule_index::RuleIndex;
use crate::seeking::{Sought, earliest, earliest_under};
use crate::seeking_each::{decided_of_each, earliest_of_each};
use crate::testing::prop_text;
use rb_causes::{Items, NoMemory};
use std::alloc::Global;
use std::marker::Model;

/// The rules that may matter for one caller, in one context, on one type of resources.
#[derive(Drop)]
pub struct CallerIndex {
    rules: RuleIndex,
}

impl Model for CallerIndex {
    ghost use Rattle.rb_acl.specs.Indexing.{RuleIndex as Held, IsByText};

    ghost Value = { Held };

    ghost view = { λ i. i.rules };

    ghost invariant = { λ i. IsByText i.rules.nodenames × IsByText i.rules.names };
}

impl CallerIndex {
    /// The index of these policies for the caller, in this context, on this type of resources.
    pub fn build(
        alloc: Global,
        policies: &Policies,
        caller: &Caller,
        context: &Context,
        type_name: &str,
    ) -> Result<CallerIndex, NoMemory>
        requires { AreNumbered policies.now }
        ensures { IfOk result (IsIndexOf policies.now caller.now context.now type_name.now) }
    {
        let RuleIndex {
            nodenames,
            names,
            rest,
        } = RuleIndex::gather(alloc, policies, caller, context, type_name)?;
        let mut nodenames = nodenames.into_vec();
        sort_by_text(&mut nodenames)?;
        let mut names = names.into_vec();
        sort_by_text(&mut names)?;
        Ok(CallerIndex {
            rules: RuleIndex {
                nodenames: Items::of(nodenames),
                names: Items::of(names),
                rest,
            },
        })
    }

    /// The decision on an action, as `decide` gives it for the caller and the context of the index.
    /// It has to be an index of these policies for the resource's type. Where no pattern stands in
    /// the policies it takes no memory.
    pub fn decide(
        &self,
        alloc: Global,
        policies: &Policies,
        resource: &Resource,
        action: &str,
    ) -> Result<Decision, NoMemory>
        requires { (caller : Caller) × (context : Context)
            × IsIndexOf policies.now caller context resource.now.type_name self.now }
        ensures decision { (caller : Caller) (context : Context) →
            IsIndexOf policies.now caller context resource.now.type_name self.now →
            IfOk result (λ d. d ≡ decision_of policies.now
            (question_of caller context resource.now action.now)) }
        ensures named { IfOk result (IsNamed policies.now) }
        ensures memory { are_plain policies.now ≡ true → IsOk result }
    {
        if let Some(clause) = self.first(alloc, Effect::Deny, policies, resource, action)? {
            return Ok(Decision::Denied(clause));
        }
        match self.first(alloc, Effect::Allow, policies, resource, action)? {
            Some(clause) => Ok(Decision::Allowed(clause)),
            None => Ok(Decision::NoneAllows),
        }
    }

    /// The decisions on an action for each of many resources, as `decide` gives them: rule by rule,
    /// so that each pattern is built once for all. It has to be an index of these policies for the
    /// type of them all.
    pub fn decide_each(
        &self,
        alloc: Global,
        policies: &Policies,
        resources: &[Resource],
        action: &str,
    ) -> Result<Vec<Decision>, NoMemory>
        ensures { (caller : Caller) (context : Context) (type_name : List ℕ) →
            IsIndexOf policies.now caller context type_name self.now →
            All (λ resource. resource.type_name ≡ type_name) resources.now →
            IfOk result (λ decisions. decisions.items ≡ map (λ resource. decision_of policies.now
            (question_of caller context resource action.now)) resources.now) }
    {
        let denied = self.first_of_each(alloc, Effect::Deny, policies, resources, action)?;
        let allowed = self.first_of_each(alloc, Effect::Allow, policies, resources, action)?;
        decided_of_each(alloc, denied.as_slice(), allowed.as_slice())
    }

    /// For each resource the first of its places whose rule has this effect on the action.
    fn first_of_each(
        &self,
        alloc: Global,
        effect: Effect,
        policies: &Policies,
        resources: &[Resource],
        action: &str,
    ) -> Result<Vec<Option<Clause>>, NoMemory>
        ensures { IfOk result (λ places. places.items ≡ map (λ resource.
            earliest (place_decides effect policies.now resource action.now) None
            (told_for self.now resource)) resources.now) }
    {
        let rest = self.rules.rest.as_slice();
        let found = earliest_of_each(alloc, effect, policies, resources, action, rest)?;
        let mut places = Vec::with_capacity(alloc, resources.len())?;
        for (i, resource) in resources.iter().enumerate() {
            let sought = Sought {
                effect,
                policies,
                resource,
                action,
            };
            places.push(self.first_behind(alloc, &sought, found[i])?)?;
        }
        Ok(places)
    }

    /// The first of the places for the resource whose rule has this effect on the action.
    fn first(
        &self,
        alloc: Global,
        effect: Effect,
        policies: &Policies,
        resource: &Resource,
        action: &str,
    ) -> Result<Option<Clause>, NoMemory>
        ensures found { IfOk result (λ place. place
            ≡ earliest (place_decides effect policies.now resource.now action.now) None
            (told_for self.now resource.now)) }
        ensures memory { are_plain policies.now ≡ true → IsOk result }
    {
        let sought = Sought {
            effect,
            policies,
            resource,
            action,
        };
        let found = earliest(alloc, &sought, None, self.rules.rest.as_slice())?;
        self.first_behind(alloc, &sought, found)
    }

    /// The earlier of what is found and the places that stand under the resource's names.
    fn first_behind(
        &self,
        alloc: Global,
        sought: &Sought<'_>,
        found: Option<Clause>,
    ) -> Result<Option<Clause>, NoMemory>
        ensures found { IfOk result (λ place. place ≡ earliest (place_decides sought.now.effect
            sought.now.policies.now sought.now.resource.now sought.now.action.now) found
            (keyed_for self.now sought.now.resource.now)) }
        ensures memory { are_plain sought.now.policies.now ≡ true → IsOk result }
    {
        let props = sought.resource.props.as_slice();
        let nodenames = under(
            self.rules.nodenames.as_slice(),
            prop_text(props, "nodename"),
        );
        let names = under(self.rules.names.as_slice(), prop_text(props, "name"));
        let found = earliest_under(alloc, sought, found, nodenames)?;
        earliest_under(alloc, sought, found, names)
    }
}

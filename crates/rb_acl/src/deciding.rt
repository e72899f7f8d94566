ghost use Rattle.rb_acl.specs.Applying.{question_of, speaks_of, is_asked, rule_decides};
ghost use Rattle.rb_acl.specs.Deciding.{clause_decides, clauses, first_place, placed_rules, placed_types, decision_of};
ghost use Rattle.rb_acl.specs.Naming.{IsNamed};
ghost use Rattle.rb_acl.specs.Numbering.{AreNumbered, IsPolicyNumbered, IsRulesNumbered};
ghost use Rattle.rb_acl.specs.Plain.{is_plain_rules, is_plain_policy, are_plain};
ghost use Rattle.std.specs.Prelude.{◌≡◌, true, IfOk, IsOk};

use crate::applying::{Question, rule_decides, speaks_of};
use crate::effect::Effect;
use crate::policy::{Caller, Clause, Context, Decision, Policies, Policy, Resource, TypeRules};
use rb_causes::NoMemory;
use std::alloc::Global;

/// The decision on an action, with the clause that decides: the first that applies and denies the
/// action, in order of documents, types and rules, else the first that applies and allows it. Where
/// no pattern stands in the policies it takes no memory.
pub fn decide(
    alloc: Global,
    policies: &Policies,
    caller: &Caller,
    context: &Context,
    resource: &Resource,
    action: &str,
) -> Result<Decision, NoMemory>
    requires { AreNumbered policies.now }
    ensures decision { IfOk result (λ d. d ≡ decision_of policies.now
        (question_of caller.now context.now resource.now action.now)) }
    ensures named { IfOk result (IsNamed policies.now) }
    ensures memory { are_plain policies.now ≡ true → IsOk result }
{
    let question = Question {
        caller,
        context,
        resource,
        action,
    };
    if let Some(clause) = first_of_all(alloc, &question, Effect::Deny, policies)? {
        return Ok(Decision::Denied(clause));
    }
    match first_of_all(alloc, &question, Effect::Allow, policies)? {
        Some(clause) => Ok(Decision::Allowed(clause)),
        None => Ok(Decision::NoneAllows),
    }
}

/// The first clause of all that has this effect on what is asked.
fn first_of_all(
    alloc: Global,
    question: &Question,
    effect: Effect,
    policies: &Policies,
) -> Result<Option<Clause>, NoMemory>
    requires { AreNumbered policies.now }
    ensures found { IfOk result (λ place. place ≡
        first_place (clause_decides effect question.now) (clauses policies.now)) }
    ensures memory { are_plain policies.now ≡ true → IsOk result }
{
    for (doc, policy) in policies.docs.as_slice().iter().enumerate() {
        let found = first_of_policy(alloc, question, effect, policy, doc as u32)?;
        if found.is_some() {
            return Ok(found);
        }
    }
    Ok(None)
}

/// The first clause of this document. One that does not speak of the caller is not looked through.
fn first_of_policy(
    alloc: Global,
    question: &Question,
    effect: Effect,
    policy: &Policy,
    doc: u32,
) -> Result<Option<Clause>, NoMemory>
    requires { IsPolicyNumbered policy.now }
    ensures found { IfOk result (λ place. place ≡ first_place (clause_decides effect question.now)
        (placed_types policy.now doc 0 policy.now.types)) }
    ensures memory { is_plain_policy policy.now ≡ true → IsOk result }
{
    if !speaks_of(alloc, policy, question.caller, question.context)? {
        return Ok(None);
    }
    first_of_types(alloc, question, effect, policy, doc)
}

/// The first clause of this document, which speaks of the caller.
fn first_of_types(
    alloc: Global,
    question: &Question,
    effect: Effect,
    policy: &Policy,
    doc: u32,
) -> Result<Option<Clause>, NoMemory>
    requires numbered { IsPolicyNumbered policy.now }
    requires speaks { speaks_of policy.now question.now.caller question.now.context ≡ true }
    ensures found { IfOk result (λ place. place ≡ first_place (clause_decides effect question.now)
        (placed_types policy.now doc 0 policy.now.types)) }
    ensures memory { is_plain_policy policy.now ≡ true → IsOk result }
{
    for (type_index, rules) in policy.types.as_slice().iter().enumerate() {
        let found = first_of_type(
            alloc,
            question,
            effect,
            policy,
            rules,
            doc,
            type_index as u32,
        )?;
        if found.is_some() {
            return Ok(found);
        }
    }
    Ok(None)
}

/// The first clause of this type of this document. Rules for another type are not looked through.
fn first_of_type(
    alloc: Global,
    question: &Question,
    effect: Effect,
    policy: &Policy,
    rules: &TypeRules,
    doc: u32,
    type_index: u32,
) -> Result<Option<Clause>, NoMemory>
    requires numbered { IsRulesNumbered rules.now }
    requires speaks { speaks_of policy.now question.now.caller question.now.context ≡ true }
    ensures found { IfOk result (λ place. place ≡ first_place (clause_decides effect question.now)
        (placed_rules policy.now rules.now.name doc type_index 0 rules.now.rules)) }
    ensures memory { is_plain_rules rules.now ≡ true → IsOk result }
{
    if rules.name.as_str() != question.resource.type_name.as_str() {
        return Ok(None);
    }
    first_of_rules(alloc, question, effect, policy, rules, doc, type_index)
}

/// The first clause of this type, which is that of the resource.
fn first_of_rules(
    alloc: Global,
    question: &Question,
    effect: Effect,
    policy: &Policy,
    rules: &TypeRules,
    doc: u32,
    type_index: u32,
) -> Result<Option<Clause>, NoMemory>
    requires numbered { IsRulesNumbered rules.now }
    requires asked { is_asked question.now policy.now rules.now.name ≡ true }
    ensures found { IfOk result (λ place. place ≡ first_place (clause_decides effect question.now)
        (placed_rules policy.now rules.now.name doc type_index 0 rules.now.rules)) }
    ensures memory { is_plain_rules rules.now ≡ true → IsOk result }
{
    for (rule, wanted) in rules.rules.as_slice().iter().enumerate() {
        if rule_decides(alloc, question, effect, wanted)? {
            return Ok(Some(Clause {
                doc,
                type_index,
                rule: rule as u32,
            }));
        }
    }
    Ok(None)
}

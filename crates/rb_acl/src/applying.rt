ghost use Rattle.rb_acl.specs.Applying.{scope_holds, by_holds, speaks_of, test_holds, names_action, listed_actions, rule_decides};
ghost use Rattle.rb_acl.specs.Plain.{is_plain_scope, is_plain_by, is_plain_rule, is_plain_policy};
ghost use Rattle.std.specs.Prelude.{◌≡◌, true, ◌&&◌, IfOk, IsOk};
ghost use Rattle.std.specs.List.{list_any, list_all};

use crate::effect::Effect;
use crate::policy::{ByRule, Caller, Context, Policy, Resource, Rule, Scope};
use rb_causes::{NoMemory, Text};
use std::alloc::Global;
use std::marker::Model;

/// What is asked: whether this caller may do this action here on this resource.
#[derive(Drop)]
pub struct Question<'a> {
    pub caller: &'a Caller,
    pub context: &'a Context,
    pub resource: &'a Resource,
    pub action: &'a str,
}

impl<'a> Model for Question<'a> {
    ghost use Rattle.rb_acl.specs.Applying.{Question as Asked, question_of};

    ghost Value = { Asked };

    ghost view = { λ q. question_of q.caller.now q.context.now q.resource.now q.action.now };
}

impl Scope {
    fn holds(&self, alloc: Global, context: &Context) -> Result<bool, NoMemory>
        ensures found { IfOk result (λ yes. yes ≡ scope_holds self.now context.now) }
        ensures memory { is_plain_scope self.now ≡ true → IsOk result }
    {
        match self {
            Scope::Project(value) => match context {
                Context::Project(name) => value.holds_of(alloc, name.as_str()),
                Context::Application => Ok(false),
            },
            Scope::Application(value) => match context {
                Context::Project(_) => Ok(false),
                Context::Application => value.holds_of(alloc, "rundeck"),
            },
        }
    }
}

impl ByRule {
    fn holds(&self, alloc: Global, caller: &Caller) -> Result<bool, NoMemory>
        ensures found { IfOk result (λ yes. yes ≡ by_holds caller.now self.now) }
        ensures memory { is_plain_by self.now ≡ true → IsOk result }
    {
        match self {
            ByRule::User(value) => value.holds_of(alloc, caller.user.as_str()),
            ByRule::Group(value) => value.holds_of_any(alloc, caller.groups.as_slice()),
        }
    }
}

/// Whether one of these holds for the caller.
fn one_holds(alloc: Global, by: &[ByRule], caller: &Caller) -> Result<bool, NoMemory>
    ensures found { IfOk result (λ yes. yes ≡ list_any (by_holds caller.now) by.now) }
    ensures memory { list_all is_plain_by by.now ≡ true → IsOk result }
{
    for rule in by {
        if rule.holds(alloc, caller)? {
            return Ok(true);
        }
    }
    Ok(false)
}

/// Whether the policy speaks of the caller, in this context.
pub fn speaks_of(
    alloc: Global,
    policy: &Policy,
    caller: &Caller,
    context: &Context,
) -> Result<bool, NoMemory>
    ensures found { IfOk result (λ yes. yes ≡ speaks_of policy.now caller.now context.now) }
    ensures memory { is_plain_policy policy.now ≡ true → IsOk result }
{
    // Whom it speaks of is asked first: contexts are often patterns, and callers seldom are.
    if !one_holds(alloc, policy.by.as_slice(), caller)? {
        return Ok(false);
    }
    policy.scope.holds(alloc, context)
}

/// Whether the list names the action, or any by a star.
pub fn is_named(actions: &[Text], action: &str) -> bool
    ensures { result ≡ names_action actions.now action.now }
{
    actions
        .iter()
        .any(|name| name.as_str() == action || name.as_str() == "*")
}

pub fn actions_of(rule: &Rule, effect: Effect) -> &[Text]
    ensures { result.now ≡ listed_actions effect rule.now }
{
    match effect {
        Effect::Deny => rule.deny.as_slice(),
        Effect::Allow => rule.allow.as_slice(),
    }
}

/// Whether each test of the rule holds for the resource.
fn passes(alloc: Global, rule: &Rule, resource: &Resource) -> Result<bool, NoMemory>
    ensures found { IfOk result (λ yes. yes ≡ list_all (test_holds resource.now) rule.now.tests) }
    ensures memory { is_plain_rule rule.now ≡ true → IsOk result }
{
    for test in rule.tests.as_slice() {
        if !test.holds(alloc, resource)? {
            return Ok(false);
        }
    }
    Ok(true)
}

/// Whether the rule names the action for this effect, and its tests hold for the resource.
pub fn rule_decides(
    alloc: Global,
    question: &Question,
    effect: Effect,
    rule: &Rule,
) -> Result<bool, NoMemory>
    ensures found { IfOk result (λ yes. yes ≡ rule_decides effect question.now rule.now) }
    ensures memory { is_plain_rule rule.now ≡ true → IsOk result }
{
    rule_answers(alloc, question.resource, question.action, effect, rule)
}

/// The same without who asks and where.
pub fn rule_answers(
    alloc: Global,
    resource: &Resource,
    action: &str,
    effect: Effect,
    rule: &Rule,
) -> Result<bool, NoMemory>
    ensures found { IfOk result (λ yes. yes
        ≡ (names_action (listed_actions effect rule.now) action.now
        && list_all (test_holds resource.now) rule.now.tests)) }
    ensures memory { is_plain_rule rule.now ≡ true → IsOk result }
{
    // The cheaper test first: most rules that are looked at for a denial deny nothing.
    if !is_named(actions_of(rule, effect), action) {
        return Ok(false);
    }
    passes(alloc, rule, resource)
}

ghost use Rattle.rb_acl.specs.Numbering.{AreNumbered, IsPolicyNumbered, IsRulesNumbered};
ghost use Rattle.std.specs.Prelude.{◌↔◌, IsTrue, All};

use crate::policy::{Policies, Policy, TypeRules};

/// One more than the greatest number of a document, a type or a rule.
const LIMIT: usize = 0x1_0000_0000;

impl Policies {
    /// Whether 32 bits number the documents, the types of each and the rules of each; takes no
    /// memory.
    pub fn are_numbered(&self) -> bool
        ensures { IsTrue result ↔ AreNumbered self.now }
    {
        self.docs.len() < LIMIT && all_numbered(self.docs.as_slice())
    }
}

fn all_numbered(docs: &[Policy]) -> bool
    ensures { IsTrue result ↔ All IsPolicyNumbered docs.now }
{
    docs.iter().all(|policy| is_numbered(policy))
}

fn is_numbered(policy: &Policy) -> bool
    ensures { IsTrue result ↔ IsPolicyNumbered policy.now }
{
    policy.types.len() < LIMIT && all_short(policy.types.as_slice())
}

fn all_short(types: &[TypeRules]) -> bool
    ensures { IsTrue result ↔ All IsRulesNumbered types.now }
{
    types.iter().all(|rules| rules.rules.len() < LIMIT)
}

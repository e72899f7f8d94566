//! What a decision means for the rules of the policies, and what an added policy changes: each
//! function proves a law.
ghost use Rattle.rb_acl.specs.Laws.{DenialIsFirst, AllowanceIsFirst, NoneIsExact, DenialStays, DenialStaysInType, DenyingAllowsNothing};

/// Denied names the first rule that applies and denies the action.
pub fn denial_is_first()
    ensures { DenialIsFirst }
{}

/// Allowed names the first rule that applies and allows the action, and no rule that applies denies
/// it.
pub fn allowance_is_first()
    ensures { AllowanceIsFirst }
{}

/// NoneAllows comes exactly where no rule that applies denies the action or allows it.
pub fn none_is_exact()
    ensures { NoneIsExact }
{}

/// A policy added anywhere never undoes a denial.
pub fn denial_stays()
    ensures { DenialStays }
{}

/// Nor does a rule added anywhere to a type of a policy.
pub fn denial_stays_in_type()
    ensures { DenialStaysInType }
{}

/// A policy that only denies, added anywhere, never makes an action allowed.
pub fn denying_allows_nothing()
    ensures { DenyingAllowsNothing }
{}

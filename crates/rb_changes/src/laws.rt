//! The laws of policies on which the tables rest: the function has nothing to run.
ghost use Rattle.rb_acl_doc.specs.Laws.{SmallAreNumbered};
ghost use Rattle.rb_yaml_laws.specs.Sizes.{SizeIsBounded};

use rb_acl_doc::laws::small_are_numbered;
use rb_yaml_laws::laws::size_is_bounded;

/// A text has few policies for its bytes, and 32 bits number few.
pub(crate) fn policy_laws()
    ensures sizes { SizeIsBounded }
    ensures numbered { SmallAreNumbered }
{
    size_is_bounded();
    small_are_numbered();
}

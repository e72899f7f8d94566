ghost use Rattle.rb_acl_doc.specs.declared.fault.AclErr.TheVariants as variants;
ghost use Rattle.std.specs.Prelude.{◌≡◌};

use rb_causes::{NoMemory, Text};
use rb_text::PatternErr;

/// What is wrong with a policy document. Of several faults that is told whose kind comes first, in
/// the order of these; of one kind the first as written, and what is inside a map before what is
/// wrong with it as a whole. Before all others a document that is no map is `BadShape(document)`.
#[derive(Debug, Drop, PartialEq, Eq)]
pub enum AclKind {
    /// A key that is not read, in the document, in `context`, in `by` or in a rule.
    UnknownKey(Text),
    /// The document has no `context`.
    MissingContext,
    /// The document has no `by`.
    MissingBy,
    /// The document has no `for`.
    MissingFor,
    /// The innermost key whose value is, or holds, what is of another form than it is to have.
    BadShape(Text),
    /// A text that is to be a pattern is refused as one, and why: not for want of memory.
    BadPattern(PatternErr),
    /// A rule allows and denies nothing.
    NoAction,
}

/// The first faulty document, by its number from 1, and what is wrong with it.
#[derive(Debug, Drop, PartialEq, Eq)]
pub struct AclFault {
    pub doc: u32,
    pub kind: AclKind,
}

/// Why documents give no policies.
#[derive(Debug, Drop)]
pub enum AclErr {
    Fault(AclFault),
    NoMemory,
}

impl From<NoMemory> for AclErr {
    ghost from_gives = { λ _ error. error ≡ variants.NoMemory };

    fn from(_error: NoMemory) -> AclErr {
        AclErr::NoMemory
    }
}

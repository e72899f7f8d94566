//! Which of several flaws is told.
ghost use Rattle.rb_acl_doc.specs.Telling.{kind_rank, sooner};
ghost use Rattle.std.specs.Prelude.{◌≡◌, Some};

use crate::fault::AclKind;

/// The place of a kind in the order of kinds.
fn kind_rank(kind: &AclKind) -> u8
    ensures { result ≡ kind_rank kind.now }
{
    match kind {
        AclKind::UnknownKey(_) => 0,
        AclKind::MissingContext => 1,
        AclKind::MissingBy => 2,
        AclKind::MissingFor => 3,
        AclKind::BadShape(_) => 4,
        AclKind::BadPattern(_) => 5,
        AclKind::NoAction => 6,
    }
}

/// Of two flaws, the second of which is written behind the first, the one that is told.
pub(crate) fn sooner(first: Option<AclKind>, second: Option<AclKind>) -> Option<AclKind>
    ensures { result ≡ sooner first second }
{
    match first {
        None => second,
        Some(a) => match second {
            None => Some(a),
            Some(b) => sooner_of(a, b),
        },
    }
}

fn sooner_of(a: AclKind, b: AclKind) -> Option<AclKind>
    ensures { result ≡ sooner (Some a) (Some b) }
{
    if kind_rank(&a) <= kind_rank(&b) {
        Some(a)
    } else {
        Some(b)
    }
}

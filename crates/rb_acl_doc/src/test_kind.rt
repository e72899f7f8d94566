ghost use Rattle.rb_acl_doc.specs.Policies.{kind_of_test};
ghost use Rattle.std.specs.Prelude.{◌≡◌};

/// The kinds of tests that a rule may have, as their keys are called.
#[derive(Clone, Copy)]
pub enum TestKind {
    Match,
    Equals,
    Contains,
    Subset,
}

/// The kind of test that a key of a rule writes.
pub(crate) fn kind_of_test(key: &str) -> Option<TestKind>
    ensures { result ≡ kind_of_test key.now }
{
    match key {
        "match" => Some(TestKind::Match),
        "equals" => Some(TestKind::Equals),
        "contains" => Some(TestKind::Contains),
        "subset" => Some(TestKind::Subset),
        _ => None,
    }
}

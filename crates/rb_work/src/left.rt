//! How many tasks may still be started.
ghost use Rattle.rb_work.specs.Left.{fewer, may_start};
ghost use Rattle.std.specs.Prelude.{◌≡◌};

/// Whether one more may be started.
pub(crate) fn may_start(left: Option<u64>) -> bool
    ensures { result ≡ may_start left }
{
    match left {
        Some(0) => false,
        Some(_) => true,
        None => true,
    }
}

/// How many may be started behind one more.
pub(crate) fn fewer(left: Option<u64>) -> Option<u64>
    ensures { result ≡ fewer left }
{
    match left {
        Some(most) => Some(most.saturating_sub(1)),
        None => None,
    }
}

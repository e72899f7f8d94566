//! How many callers a line has yet.
ghost use Rattle.rb_tcp.specs.Left.{has_left, one_less, so_many};
ghost use Rattle.std.specs.Prelude.{◌≡◌};

/// How many callers a line may still take.
#[derive(Clone, Copy, Debug, PartialEq, Eq)]
pub enum CallersLeft {
    Any,
    Only(u64),
}

impl CallersLeft {
    /// So many, where 0 says any number.
    pub fn of(number: u64) -> CallersLeft
        ensures { result ≡ so_many number }
    {
        if number == 0 {
            CallersLeft::Any
        } else {
            CallersLeft::Only(number)
        }
    }

    /// Whether one more may be taken.
    pub(crate) fn has_left(self) -> bool
        ensures { result ≡ has_left self }
    {
        match self {
            CallersLeft::Any => true,
            CallersLeft::Only(number) => number > 0,
        }
    }

    /// How many are left behind one more.
    pub(crate) fn one_less(self) -> CallersLeft
        ensures { result ≡ one_less self }
    {
        match self {
            CallersLeft::Any => CallersLeft::Any,
            CallersLeft::Only(number) => CallersLeft::Only(number.saturating_sub(1)),
        }
    }
}

ghost use Rattle.rb_api.specs.declared.request_fault.Unasked.TheVariants as variants;
ghost use Rattle.std.specs.Prelude.{◌≡◌};

use rb_causes::NoMemory;
use rb_query::Query;

/// Why the desk is not asked, in the order in which it is looked for. The number of an execution
/// is looked at where the desk would look for it.
#[derive(Clone, Copy, Debug, PartialEq, Eq)]
pub enum RequestFault {
    /// No listed token is given.
    Unauthorized,
    /// The path has no route.
    NoRoute,
    /// The route has not this method.
    NoMethod,
    /// The version is no decimal from 24 to 34.
    BadVersion,
    /// The first query, as written, whose value is not read.
    BadQuery(Query),
    BadBody,
    /// The words of `argString` are no pairs of a name and a value.
    BadArgs,
    BadFilter,
    /// The number is no decimal, so that no execution has it.
    NoExecution,
}

/// Why a request has come to no call.
#[derive(Drop)]
pub(crate) enum Unasked {
    Fault(RequestFault),
    NoMemory,
}

impl From<NoMemory> for Unasked {
    ghost from_gives = { λ _ error. error ≡ variants.NoMemory };

    fn from(_error: NoMemory) -> Unasked {
        Unasked::NoMemory
    }
}

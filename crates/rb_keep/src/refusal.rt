use rb_causes::Trouble;
use sqlite::{Error, ErrorCode};
use std::alloc::{AllocError, AllocFailed};
use std::fmt;

/// Why a store refuses a call.
#[derive(Clone, Copy, Debug)]
pub(crate) enum Refusal {
    /// The database refuses it; want of memory is told so too.
    Database(Error),
    /// The entry of this number is not there, or is no row of a log.
    Entry(u64),
    /// A row that is to be kept has a number of 2^63 or more.
    Number,
    /// The store has this format, which is not read.
    Format(i64),
    /// The rows that were kept are not all there any more.
    Lost,
}

/// A transaction is under way where none may be.
pub(crate) const UNDER_WAY: Refusal = Refusal::Database(Error::SqliteFailure(
    ErrorCode::TransactionState,
));

impl Refusal {
    /// Want of memory is told as such, and every other refusal is a fault of the store.
    pub(crate) fn trouble(&self) -> Trouble {
        match self {
            Refusal::Database(Error::SqliteFailure(ErrorCode::OutOfMemory)) => Trouble::NoMemory,
            _ => Trouble::Failed,
        }
    }
}

impl From<Error> for Refusal {
    fn from(error: Error) -> Refusal {
        Refusal::Database(error)
    }
}

impl From<AllocError> for Refusal {
    fn from(error: AllocError) -> Refusal {
        Refusal::Database(Error::from(error))
    }
}

impl<T: Drop> From<AllocFailed<T>> for Refusal {
    fn from(error: AllocFailed<T>) -> Refusal {
        Refusal::Database(Error::from(error))
    }
}

impl fmt::Display for Refusal {
    fn fmt<W: fmt::Write>(&self, f: &mut fmt::Formatter<W>) -> fmt::Result {
        match self {
            Refusal::Database(error) => write!(f, "{error}"),
            Refusal::Entry(number) => write!(f, "entry {number} is not there, or is no row"),
            Refusal::Number => f.write_str("a row has a number that the table does not hold"),
            Refusal::Format(number) => write!(f, "format {number} is not read"),
            Refusal::Lost => f.write_str("rows that were kept are not there any more"),
        }
    }
}

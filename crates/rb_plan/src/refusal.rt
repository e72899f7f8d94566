ghost use Rattle.rb_plan.specs.declared.refusal.VerdictErr.TheVariants as variants;
ghost use Rattle.std.specs.Prelude.{◌≡◌};

use rb_acl::Decision;
use rb_causes::{Items, NoMemory, Text};
use rb_option::OptionFault;

/// Why a run is refused. The rules are looked at in this order, and each goes over the whole walk
/// through the references before the next. A path holds `GROUP/NAME` of each reference from the
/// asked job's own step down.
#[derive(Drop)]
pub enum Refusal {
    /// No job has the id.
    NoJob,
    /// The caller may not run the job.
    JobDenied(Decision),
    /// A reference cannot be resolved, or there are too many commands.
    BadReference {
        path: Items<Text>,
        cause: RefCause,
    },
    /// The caller may not run a referenced job.
    ReferenceDenied {
        path: Items<Text>,
        decision: Decision,
    },
    /// The job is not to be run.
    Disabled,
    /// The job runs already, as this execution.
    AlreadyRunning(u64),
    /// An option of the job, or of a referenced one, is refused.
    BadOption {
        path: Items<Text>,
        fault: OptionFault,
    },
    /// The filter selects no node.
    NoNodeSelected,
    /// The caller may run no selected node; this is the first.
    NoNodeAllowed {
        node: Text,
        decision: Decision,
    },
    /// So many leaves are more than 100,000.
    TooLarge(u64),
}

/// What is wrong with a reference.
#[derive(Clone, Copy, Debug, PartialEq, Eq)]
pub enum RefCause {
    /// The project has no job of this group and name.
    NotFound,
    /// It stands eight references deep already.
    TooDeep,
    /// The 1,001st command or handler stands in this job.
    TooMany,
}

#[derive(Drop)]
pub enum VerdictErr {
    Refused(Refusal),
    NoMemory,
}

impl From<NoMemory> for VerdictErr {
    ghost from_gives = { λ _ error. error ≡ variants.NoMemory };

    fn from(_error: NoMemory) -> VerdictErr {
        VerdictErr::NoMemory
    }
}

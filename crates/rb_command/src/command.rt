use rb_acl::{Caller, Context, Resource};
use rb_causes::Text;

/// What the words of the command line ask for.
#[derive(Drop)]
pub enum Command {
    /// `drill FILE`: run the runs of this drill file.
    Drill(Text),
    /// `check nodes FILE`: count the nodes of this resource file. `check nodes FILE FILTER
    /// PRECEDENCE`: name those that the filter selects, where its exclude clauses go first if the
    /// precedence is `true`.
    CheckNodes {
        file: Text,
        filter: Option<Text>,
        exclude_first: bool,
    },
    /// `check jobs FILE`: count the jobs of this job file.
    CheckJobs(Text),
    /// `check policy FILE`: count the documents of this policy file.
    CheckPolicy(Text),
    /// `explain FILE USER GROUPS CONTEXT TYPE ACTION KEY=TEXT ..`: what the policies of this file
    /// decide on the action, and by which of their clauses.
    Explain {
        file: Text,
        caller: Caller,
        context: Context,
        resource: Resource,
        action: Text,
    },
    /// `next CRONTAB ZONE AFTER COUNT`: the next instants of a schedule, in seconds since 1970,
    /// later than `after`; 1 to 100 of them.
    Next {
        crontab: Text,
        zone: Text,
        after: i64,
        count: u32,
    },
    /// `demo NODES`: play the demo on a desk of so many nodes, 1 to 1,000, and print its counts.
    Demo(u32),
}

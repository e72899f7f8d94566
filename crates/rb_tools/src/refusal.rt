ghost use Rattle.rb_tools.specs.declared.refusal.ToolRefusal.TheVariants as variants;
ghost use Rattle.std.specs.Prelude.{◌≡◌};

use rb_acl_doc::AclFault;
use rb_causes::NoMemory;
use rb_cron::ScheduleErr;
use rb_inventory::NodeFault;
use rb_job::JobFault;
use rb_node::FilterErr;
use rb_yaml::YamlFault;
use std::alloc::AllocError;

/// Why nothing is printed: the documents are looked at first, then what they hold, then the filter.
#[derive(Debug, Drop)]
pub(crate) enum ToolRefusal {
    Yaml(YamlFault),
    Node(NodeFault),
    Policy(AclFault),
    Job(JobFault),
    Filter(FilterErr),
    Crontab(ScheduleErr),
    Zone,
    NoMemory,
}

impl From<NoMemory> for ToolRefusal {
    ghost from_gives = { λ _ refusal. refusal ≡ variants.NoMemory };

    fn from(_error: NoMemory) -> ToolRefusal {
        ToolRefusal::NoMemory
    }
}

impl From<AllocError> for ToolRefusal {
    ghost from_gives = { λ _ refusal. refusal ≡ variants.NoMemory };

    fn from(_error: AllocError) -> ToolRefusal {
        ToolRefusal::NoMemory
    }
}

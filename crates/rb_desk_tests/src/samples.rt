//! What desks are asked, line by line, and what they answer.

/// What ann and all others of ops may do, and three nodes of the web.
pub(crate) const WORLD: &str = "\
policy|ops.aclpolicy|OPS => Imported 1
nodes|desk|NODES => Imported 1
";

/// One job.
pub(crate) const JOBS: &str = "\
jobs|desk|RESTART => Imported 1 7b1f0c2a-0001 Created
";

/// A run on two of three nodes.
pub(crate) const RUN: &str = "\
run|ann|7b1f0c2a-0001|mode=soft => 1 running on web1 web3 not web2: ops.aclpolicy#1 for node \
rule 2
";

/// The rest of the run, and the end of the door.
pub(crate) const REST: &str = "\
claim|0 => task echo soft web1
report|0 => all
claim|1 => task echo soft web3
report|1 => all
close|0 => all
";

/// Calls that add no row, after the run.
pub(crate) const REFUSED_RUNS: &str = "\
run|ann|none|mode=soft => NoJob
run|bob|7b1f0c2a-0001|mode=soft => JobDenied; run on job ops/restart: none allows
run|ann|7b1f0c2a-0001|mode=odd => BadOption
run|ann|7b1f0c2a-0001|mode=soft|filter=name: x => NoNodeSelected
run|ann|7b1f0c2a-0001|mode=soft|filter=name: web2 => NoNodeAllowed web2; run on node web2: \
ops.aclpolicy#1 for node rule 2
nodes|a/b|NODES => BadName
abort|ann|1 => Ended
abort|ann|2 => NoExecution
claim|0 => Closed
claim|2 => may not be asked
close|0 => may not be asked
run|a,b|7b1f0c2a-0001|mode=soft => may not be asked
claim|1|-1 => may not be asked
claim|1|0 => Closed
claim|1|7258118399 => Closed
claim|1|7258118400 => may not be asked
";

/// What waits for the keeper is kept.
pub(crate) const SAVE: &str = "\
save => Saved
";

/// Imports that add no row, where the imports of the run stand.
pub(crate) const IMPORTS: &str = "\
nodes|a/b|NODES => BadName
nodes|desk|web1: [ => BadYaml
nodes|desk|- 1 => BadNodes
policy|a/b|OPS => BadName
policy|new.aclpolicy|- a => BadPolicy
policy|new.aclpolicy|OPS|ann => create on kind system_acl: none allows
jobs|desk|a: 1 => BadJobs
jobs|other|RESTART => NoProject
jobs|desk|TWICE => BadJobs
jobs|desk|NAMED-RESTART => NameTaken other
jobs|desk|RENAMED|ann => update on job ops/restart: none allows
policy|ops.aclpolicy|OPS => Imported 1
nodes|desk|NODES => Imported 1
jobs|desk|RESTART => Imported 1 7b1f0c2a-0001 Same
look|ann|jobs|desk => jobs 7b1f0c2a-0001
";

/// What is imported then.
pub(crate) const LATER_IMPORTS: &str = "\
nodes|two|TWO-NODES => Imported 1
jobs|two|RESTART => IdTaken 7b1f0c2a-0001
nodes|desk|TWO-NODES => Imported 2
jobs|desk|RENAMED => Imported 2 7b1f0c2a-0001 Updated
jobs|desk|NAMED-RESTART => Imported 3 other Created
policy|admin.aclpolicy|ADMIN => Imported 2
policy|ops.aclpolicy|JOBS-ALONE|ann => Imported 3
jobs|desk|RENAMED|ann => Imported 3 7b1f0c2a-0001 Same
look|ann|jobs|desk => jobs 7b1f0c2a-0001 other
";

/// What is shown stays as it was accepted, whatever is imported then.
pub(crate) const LOOKS: &str = "\
look|ann|execution|1 => 1 running on web1 web3 not web2: ops.aclpolicy#1 for node rule 2
look|ann|state|1 => state 1 running web1 Undone web3 Undone
look|ann|execution|2 => NoExecution
look|ann|jobs|desk => jobs 7b1f0c2a-0001
look|bob|jobs|desk => jobs
look|ann|jobs|none => NoProject
look|ann|resources|desk => read on kind node: none allows
policy|ops.aclpolicy|OPS-AND-LISTS => Imported 2
nodes|desk|TWO-NODES => Imported 2
jobs|desk|RENAMED => Imported 2 7b1f0c2a-0001 Updated
look|ann|resources|desk => nodes web1 web2
look|bob|resources|desk => read on kind node: none allows
look|ann|execution|1 => 1 running on web1 web3 not web2: ops.aclpolicy#1 for node rule 2
look|bob|execution|1 => read on job ops/again: none allows
run|ann|7b1f0c2a-0001 => AlreadyRunning 1
claim|0 => task echo soft web1
report|0 => all
look|ann|state|1 => state 1 running web1 Good web3 Undone
claim|1 => task echo soft web3
report|1 => all
look|ann|execution|1 => 1 succeeded on web1 web3 not web2: ops.aclpolicy#1 for node rule 2
run|ann|7b1f0c2a-0001 => 2 running on web1 web2
look|ann|executions|desk|20|0 => executions 2 of 2; 2 running on web1 web2; 1 succeeded on \
web1 web3 not web2: ops.aclpolicy#1 for node rule 2
look|ann|executions|desk|20|0|running => executions 1 of 1; 2 running on web1 web2
look|ann|executions|desk|1|1 => executions 1 of 2; 1 succeeded on web1 web3 not web2: \
ops.aclpolicy#1 for node rule 2
look|bob|executions|desk|20|0 => executions 0 of 0
policy|ops.aclpolicy|JOBS-ALONE => Imported 3
claim|0 => 2 withdrawn web1 as none allows
claim|1 => 2 withdrawn web2 as none allows
claim|0 => Idle
look|ann|state|2 => state 2 failed web1 Undone by none allows web2 Undone by none allows
run|ann|7b1f0c2a-0001 => NoNodeAllowed web1; read on node web1: none allows
look|ann|resources|desk => read on kind node: none allows
";

/// Three jobs.
pub(crate) const OTHERS: &str = "\
jobs|desk|OTHERS => Imported 1 first Created second Created empty Created
";

/// Two runs at a time, whose leaves two workers claim.
pub(crate) const TWO_RUNS: &str = "\
run|ann|first => 1 running on web1 web3 not web2: ops.aclpolicy#1 for node rule 2
run|ann|second => 2 running on web1
claim|0 => task first web1
claim|1 => task first web3
report|1 => all
claim|1 => task second
report|0 => all
claim|0 => Idle
report|1 => all
claim|0 => task third
claim|1 => Idle
close|0 => all
claim|1 => Idle
report|0 => all
claim|1 => Closed
look|ann|execution|2 => 2 succeeded on web1
run|ann|empty|filter=name: x => 3 succeeded on
";

/// An execution that is stopped while a leaf of it is open.
pub(crate) const STOPPED: &str = "\
run|ann|first => 1 running on web1 web3 not web2: ops.aclpolicy#1 for node rule 2
claim|0 => task first web1
abort|bob|1 => kill on job ops/first: none allows
abort|ann|1 => running
claim|1 => Idle
abort|ann|1 => Aborting
look|ann|state|1 => state 1 running web1 Undone web3 Undone
report|0 => all
look|ann|state|1 => state 1 aborted web1 Good web3 Undone
abort|ann|1 => Ended
run|ann|second => 2 running on web1
abort|ann|2 => aborted
claim|0 => Idle
";

/// A run of two steps on two nodes, which ends where the second program fails.
pub(crate) const FAILED: &str = "\
run|ann|second|filter=tags: web => 1 running on web1 web3 not web2: ops.aclpolicy#1 for node \
rule 2
claim|0 => task second
report|0 => all
claim|0 => task third
look|ann|state|1 => state 1 running web1 Good Undone web3 Undone Undone
report|0 => all
look|ann|state|1 => state 1 failed web1 Good Bad web3 Undone Undone
look|ann|executions|desk|20|0|failed => executions 1 of 1; 1 failed on web1 web3 not web2: \
ops.aclpolicy#1 for node rule 2
abort|ann|1 => Ended
";

/// References, with words of the referenced job.
pub(crate) const REFERENCES: &str = "\
jobs|desk|REFERENCES => Imported 2 outer Created loop Created
run|ann|loop => TooDeep ops/loop ops/loop ops/loop ops/loop ops/loop ops/loop ops/loop \
ops/loop ops/loop
run|ann|outer => 1 running on web1 web3 not web2: ops.aclpolicy#1 for node rule 2
claim|0 => task echo hard web1
report|0 => all
claim|0 => task echo hard web3
policy|ops.aclpolicy|JOBS-ALONE => Imported 2
run|ann|7b1f0c2a-0001|mode=soft => NoNodeAllowed web1; read on node web1: none allows
";

/// The first rule that holds refuses; plans with a handler that is not needed, with tiers, and with
/// a part of the nodes at a time.
pub(crate) const PLANS: &str = "\
nodes|desk|RANKED-NODES => Imported 1
policy|ops.aclpolicy|PLANS-POLICY => Imported 1
jobs|desk|PLANS => Imported 1 worst Created denied Created secret Created calls Created \
restart Created top Created middle Created low Created tiered Created partly Created
run|ann|worst|filter=tags: none => NotFound ops/gone
run|ann|denied => ReferenceDenied dev/secret; run on job dev/secret: none allows
run|ann|calls|mode=Soft|code=1 => BadOption ops/restart
run|ann|restart|mode=hard|filter=tags: db,web => 1 running on db2 web1 web3 not web2: \
ops.aclpolicy#1 for node rule 2 not db1: ops.aclpolicy#1 for node rule 3
abort|ann|1 => kill on job ops/restart: none allows
run|ann|restart|mode=soft => AlreadyRunning 1
claim|0 => task echo hard db2
report|0 => all
claim|0 => task echo hard web1
report|0 => all
claim|0 => task echo hard web3
report|0 => all
run|ann|top => 2 running on web1
claim|0 => task begin top
claim|1 => Idle
report|0 => all
claim|0 => task say middle softer low
report|0 => all
claim|0 => task echo hard web1
report|0 => all
claim|0 => task end
report|0 => all
run|ann|tiered => 3 running on db2 web1 bare web3
claim|0 => task true db2
claim|1 => task true web1
report|0 => all
claim|0 => Idle
report|1 => all
claim|0 => task true bare
claim|1 => Idle
report|0 => all
claim|0 => task true web3
report|0 => all
run|ann|partly => 4 running on bare db2 web1 web3
claim|0 => task true bare
claim|1 => Idle
report|0 => all
claim|1 => task true db2
report|1 => all
";

/// A run on one node.
pub(crate) const ON_ONE_NODE: &str = "\
run|ann|first|filter=name: web1 => 1 running on web1
";

/// An abort has its room from the run on.
pub(crate) const STOPPED_IN_TIME: &str = "\
run|ann|empty|filter=name: web1 => Full
policy|new.aclpolicy|OPS => Full
abort|ann|1 => aborted
close|0 => all
claim|0 => Closed
";

/// No room for a first import.
pub(crate) const FULL_POLICY: &str = "\
policy|ops.aclpolicy|OPS => Full
";

/// No room for a second one.
pub(crate) const FULL_NODES: &str = "\
policy|ops.aclpolicy|OPS => Imported 1
nodes|desk|NODES => Full
";

/// No room for jobs.
pub(crate) const FULL_JOBS: &str = "\
jobs|desk|RESTART => Full
";

/// No room for a run.
pub(crate) const FULL_RUN: &str = "\
run|ann|7b1f0c2a-0001|mode=soft => Full
";

/// No room for a run on one node.
pub(crate) const FULL_ON_ONE_NODE: &str = "\
run|ann|first|filter=name: web1 => Full
";

/// Zones, and jobs that are due: the earliest instant of those that were missed is fired, once, and
/// of two jobs the one of the lesser id.
pub(crate) const SCHEDULES: &str = "\
jobs|desk|SCHEDULED|ann => BadJobs
zone|here|no rule => BadZone
zone|here|CET-1CEST,M3.5.0,M10.5.0/3 => Imported 1
zone|here|CET-1CEST,M3.5.0,M10.5.0/3 => Imported 1
zone||UTC => Imported 2
policy|jobs.aclpolicy|CREATORS => Imported 2
jobs|desk|SCHEDULED|ann => Imported 1 b Created a Created
tick|1700002799 => Quiet
tick|1700002800 => Fired 1
tick|1700002800 => Quiet
look|ann|execution|1 => 1 running on web1
tick|1700013600 => Fired 2
tick|1700013600 => Fired 0
tick|1700013600 => Quiet
claim|0|1700013600 => task hourly ann
report|0 => all
claim|0|1700013600 => task nightly
report|0 => all
jobs|desk|SCHEDULED|ann => Imported 1 b Same a Same
zone|here|UTC => Imported 3
jobs|desk|SCHEDULED|ann => Imported 2 b Same a Updated
tick|1700017200 => Fired 3
tick|1700017200 => Fired 4
tick|1700017200 => Quiet
";

/// A policy that takes a node away between two leaves.
pub(crate) const WITHDRAWN: &str = "\
claim|0 => task echo soft web1
report|0 => all
policy|ops.aclpolicy|OPS-NOT-WEB3 => Imported 2
claim|0 => 1 withdrawn web3 by 0 1 1
claim|0 => Idle
look|ann|state|1 => state 1 failed web1 Good web3 Undone by ops.aclpolicy#1 for node rule 2
policy|ops.aclpolicy|OPS => Imported 3
claim|0 => Idle
";

/// One that takes a node away whose unit is opened: it goes on.
pub(crate) const OPENED_GOES_ON: &str = "\
run|ann|second => 1 running on web1
claim|0 => task second
policy|ops.aclpolicy|OPS-NOT-WEB1 => Imported 2
report|0 => all
claim|0 => task third
report|0 => all
look|ann|state|1 => state 1 succeeded web1 Good Good
";

/// Nothing runs behind an opening, and the door is closed.
pub(crate) const BEHIND: &str = "\
claim|1 => Idle
close|0 => all
claim|1 => Closed
";

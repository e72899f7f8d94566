//! Which of several flaws and faults is told.
ghost use Rattle.rb_yaml.specs.Faults.{Reads, beside, earlier, either, fault_at, fault_with, sooner_fault, foremost, goes_before, rank};
ghost use Rattle.rb_yaml.specs.Tree.{YamlTree, yaml_tree};
ghost use Rattle.std.specs.Prelude.{◌≡◌, IfOk, Result};

use crate::flaw::{Fault, Flaw, Stop};
use crate::yaml::Yaml;
use rb_causes::NoMemory;

/// The one order in which the flaws of a line are told.
fn rank(flaw: Flaw) -> u8
    ensures { result ≡ rank flaw }
{
    match flaw {
        Flaw::Tab => 1,
        Flaw::Indent => 2,
        Flaw::OutOfProfile(_) => 3,
        Flaw::Form => 4,
        Flaw::DuplicateKey => 5,
        Flaw::TooDeep => 6,
    }
}

/// The flaw of a line, or another one that is told before it.
pub(crate) fn foremost(flaw: Flaw, other: Option<Flaw>) -> Flaw
    ensures { result ≡ foremost flaw other }
{
    match other {
        Some(other) if rank(other) < rank(flaw) => other,
        _ => flaw,
    }
}

/// Of the flaws of a line that two looks find, the one that is told.
pub(crate) fn either(flaw: Option<Flaw>, other: Option<Flaw>) -> Option<Flaw>
    ensures { result ≡ either flaw other }
{
    match flaw {
        None => other,
        Some(flaw) => Some(foremost(flaw, other)),
    }
}

fn goes_before(fault: Fault, other: Fault) -> bool
    ensures { result ≡ goes_before fault other }
{
    fault.line < other.line || fault.line == other.line && rank(fault.flaw) < rank(other.flaw)
}

/// The earlier of two faults, and of two that tie the first.
pub(crate) fn earlier(fault: Fault, other: Fault) -> Fault
    ensures { result ≡ earlier fault other }
{
    if goes_before(other, fault) {
        other
    } else {
        fault
    }
}

/// The flaw of a line.
pub(crate) fn fault_at(line: u32, flaw: Flaw) -> Fault
    ensures { result ≡ fault_at line flaw }
{
    Fault { flaw, line }
}

/// The fault of a line that has this flaw.
pub(crate) fn fault_with(line: u32, flaw: Option<Flaw>) -> Option<Fault>
    ensures { result ≡ fault_with line flaw }
{
    match flaw {
        None => None,
        Some(flaw) => Some(fault_at(line, flaw)),
    }
}

/// The fault, or one of the reading that comes before it.
pub(crate) fn sooner_fault(fault: Fault, read: Result<Yaml, Stop<Fault>>) -> Result<Fault, NoMemory>
    ensures { IfOk result (λ f. (r : Result YamlTree Fault) → Reads yaml_tree read r →
        f ≡ sooner_fault fault r) }
{
    match read {
        Ok(_value) => Ok(fault),
        Err(Stop::At(other)) => Ok(earlier(fault, other)),
        Err(Stop::NoMemory) => Err(NoMemory),
    }
}

/// The reading that a fault stands beside.
pub(crate) fn beside(
    fault: Option<Fault>,
    read: Result<Yaml, Stop<Fault>>,
) -> Result<Yaml, Stop<Fault>>
    ensures { (r : Result YamlTree Fault) → Reads yaml_tree read r →
        Reads yaml_tree result (beside fault r) }
{
    match fault {
        None => read,
        Some(fault) => Err(Stop::At(sooner_fault(fault, read)?)),
    }
}

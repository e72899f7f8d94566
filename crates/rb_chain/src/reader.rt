ghost use Rattle.rb_chain.specs.Chains.{GivesChain};
ghost use Rattle.rb_yaml.specs.Tree.{docs_tree};
ghost use Rattle.std.specs.Prelude.{Err, MatchResult, Ok};

use crate::chain_err::ChainErr;
use crate::flaws::chain_flaw;
use crate::run::ChainRun;
use crate::values::runs_in;
use rb_yaml::Doc;
use std::alloc::Global;

/// The runs of a chain document, or its first flaw: run by run, in each its form before its `args`,
/// and too many of them last. More than one document, or none, is a flaw of the whole.
pub fn read_chain(alloc: Global, docs: &[Doc]) -> Result<Vec<ChainRun>, ChainErr>
    ensures { MatchResult result
        (λ runs. GivesChain (docs_tree docs.now) (Ok runs.items))
        (λ error. GivesChain (docs_tree docs.now) (Err error)) }
{
    match chain_flaw(alloc, docs)? {
        None => Ok(runs_in(alloc, docs)?.into_vec()),
        Some(fault) => Err(ChainErr::Fault(fault)),
    }
}

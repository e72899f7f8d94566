ghost use Rattle.rb_chain.specs.Chains.{ask_at};
ghost use Rattle.rb_chain.specs.Nexts.{ChainState, is_ask, next_of};
ghost use Rattle.std.specs.Prelude.{◌≡◌, ◌++◌, ◌∷◌, [], IfOk, Some, true};

use crate::asking::ask_at;
use crate::chain_next::ChainNext;
use crate::following::{next_behind, run_at};
use crate::run::ChainRun;
use rb_causes::NoMemory;
use rb_plan::RunAsk;
use std::alloc::Global;
use std::marker::Model;

/// As many runs as 32 bits number.
const MOST_RUNS: usize = 4_294_967_295;

/// A chain with the outcomes so far. Contracts see its runs and these.
#[derive(Drop)]
pub struct Chain {
    runs: Vec<ChainRun>,
    outcomes: Vec<bool>,
    next: ChainNext,
}

impl Model for Chain {
    ghost use Rattle.rb_chain.specs.Following.{IsFollowed};
    ghost use Rattle.rb_chain.specs.Nexts.{ChainState};
    ghost use Rattle.std.specs.Prelude.{vec_capacity};

    ghost Value = { ChainState };

    ghost view = { λ c. record { runs = c.runs.items; outcomes = c.outcomes.items } };

    ghost invariant = { λ c. IsFollowed c.runs.items c.outcomes.items c.next
        (vec_capacity c.outcomes) };
}

impl Chain {
    /// A chain without an outcome, and with room for all: each run may have one, and its undo.
    pub fn open(alloc: Global, runs: Vec<ChainRun>) -> Result<Chain, NoMemory>
        ensures { IfOk result (λ c. c ≡ record { runs = runs.items; outcomes = [] }) }
    {
        if runs.len() > MOST_RUNS {
            return Err(NoMemory);
        }
        let outcomes = Vec::with_capacity(alloc, 2 * runs.len())?;
        let next = run_at(runs.as_slice(), 0);
        Ok(Chain {
            runs,
            outcomes,
            next,
        })
    }

    /// What is asked for next; takes no memory.
    pub fn next(&self) -> ChainNext
        ensures { result ≡ next_of self.now.runs self.now.outcomes }
    {
        self.next
    }

    /// The run that is asked for, or the undo; it has no filter.
    pub fn ask(&self, alloc: Global) -> Result<RunAsk, NoMemory>
        requires { is_ask (next_of self.now.runs self.now.outcomes) ≡ true }
        ensures { IfOk result (λ ask. ask_at self.now.runs
            (next_of self.now.runs self.now.outcomes) ≡ Some ask) }
    {
        ask_at(alloc, self.runs.as_slice(), self.next)
    }

    /// What was asked for went well, or did not; takes no memory.
    pub fn outcome(&mut self, good: bool)
        requires { is_ask (next_of self.old.runs self.old.outcomes) ≡ true }
        ensures { self.new
            ≡ record self.old { outcomes = self.old.outcomes ++ good ∷ [] } }
    {
        self.next = next_behind(self.runs.as_slice(), self.next, good);
        // There is room, from the opening on.
        match self.outcomes.push(good) {
            Ok(()) => {}
            Err(_) => unreachable!(),
        }
    }
}

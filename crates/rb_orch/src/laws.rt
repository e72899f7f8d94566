//! What follows from the rules of this crate: each function proves a law.
ghost use Rattle.rb_orch.specs.Laws.{RankingIsOne, RankedIsSorted, TierForEachNode, TiersFollowValues, TiersNeverFall, SubsetHasCount, SubsetTakesAll};

/// What `rank` promises leaves no choice: two lists of which it holds are one.
pub fn ranking_is_one()
    ensures { RankingIsOne }
{}

/// Nodes in rank order are those that a sort by rank gives.
pub fn ranked_is_sorted()
    ensures { RankedIsSorted }
{}

/// Each node has a tier.
pub fn tier_for_each_node()
    ensures { TierForEachNode }
{}

/// Neighbours of one rank value have one tier, and others follow one another.
pub fn tiers_follow_values()
    ensures { TiersFollowValues }
{}

/// Tiers never fall along the list.
pub fn tiers_never_fall()
    ensures { TiersNeverFall }
{}

/// A subset has as many nodes as asked for, or all where there are no more.
pub fn subset_has_count()
    ensures { SubsetHasCount }
{}

/// A count over the number takes all nodes, in their order.
pub fn subset_takes_all()
    ensures { SubsetTakesAll }
{}

//! That a desk crosses threads where its keeper does, and its board may be shared: laws alone.
#![tactic(auto)]

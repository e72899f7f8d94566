/// A node's part in a plan: the whole sequence on it, or one top-level step.
#[derive(Clone, Copy, Debug, PartialEq, Eq)]
pub struct WorkUnit {
    /// The top-level step, counted from 0; 0 where the unit is the whole sequence.
    pub step: u32,
    pub node: u32,
    /// The node's tier.
    pub tier: u32,
}

/// What a rule does to the actions that it lists.
#[derive(Clone, Copy)]
pub enum Effect {
    Deny,
    Allow,
}

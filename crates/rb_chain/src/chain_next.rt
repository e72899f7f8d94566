/// What a chain asks for next, or how it ended.
#[derive(Clone, Copy, Debug, PartialEq, Eq)]
pub enum ChainNext {
    /// The run of this number, from 0, or its undo.
    Ask { run: u32, undoing: bool },
    Over { good: bool },
}

/// A piece of a file, as far as it is read by itself.
#[derive(Clone, Copy)]
pub(crate) struct Piece<'f> {
    pub text: &'f str,
    /// How many lines stand above it.
    pub above: u32,
    /// How many jobs, or documents, stand before it.
    pub before: u32,
}

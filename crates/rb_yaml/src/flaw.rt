ghost use Rattle.rb_yaml.specs.declared.flaw.Stop.TheVariants as variants;
ghost use Rattle.std.specs.Prelude.{◌≡◌};

use std::alloc::{AllocError, AllocFailed};

/// A form of YAML that is not read.
#[derive(Clone, Copy, Debug, PartialEq, Eq)]
pub(crate) enum Excluded {
    Anchor,
    Alias,
    Tag,
    FoldedScalar,
    ComplexKey,
    LiteralForm,
    NestedFlow,
    MultiLineFlow,
    MultiLineDoubleQuote,
    InlineDocument,
    DocumentEnd,
    Directive,
}

/// What may be wrong with a line, in the order in which a line's flaws are told.
#[derive(Clone, Copy, Debug, PartialEq, Eq)]
pub(crate) enum Flaw {
    Tab,
    Indent,
    OutOfProfile(Excluded),
    Form,
    DuplicateKey,
    TooDeep,
}

/// A flaw and its line from 1.
#[derive(Clone, Copy, Debug, PartialEq, Eq)]
pub(crate) struct Fault {
    pub flaw: Flaw,
    pub line: u32,
}

/// Why a reading stopped: what is wrong, or want of memory.
#[derive(Debug, Drop)]
pub(crate) enum Stop<E> {
    At(E),
    NoMemory,
}

impl<E> From<rb_causes::NoMemory> for Stop<E> {
    ghost from_gives = { λ _ stop. stop ≡ variants.NoMemory };

    fn from(_error: rb_causes::NoMemory) -> Stop<E> {
        Stop::NoMemory
    }
}

impl<E> From<AllocError> for Stop<E> {
    ghost from_gives = { λ _ stop. stop ≡ variants.NoMemory };

    fn from(_error: AllocError) -> Stop<E> {
        Stop::NoMemory
    }
}

impl<E, T: Drop> From<AllocFailed<T>> for Stop<E> {
    ghost from_gives = { λ _ stop. stop ≡ variants.NoMemory };

    fn from(_error: AllocFailed<T>) -> Stop<E> {
        Stop::NoMemory
    }
}

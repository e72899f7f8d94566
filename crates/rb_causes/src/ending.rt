ghost use Rattle.rb_causes.specs.Outside.{is_code};
ghost use Rattle.std.specs.Prelude.{◌≡◌};

/// How a program ended.
#[derive(Clone, Copy, Debug, PartialEq, Eq)]
pub enum Ending {
    /// Its exit code, 0 to 255; 256 where it ended without a code, as by a signal.
    Code(u32),
    /// It could not be started.
    NotStarted,
}

impl Ending {
    /// Whether this is a code, of at most 256.
    pub fn is_code(self) -> bool
        ensures { result ≡ is_code self }
    {
        match self {
            Ending::Code(code) => code <= 256,
            Ending::NotStarted => false,
        }
    }
}

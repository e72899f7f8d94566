//! How a door ends.
ghost use Rattle.rb_serve.specs.Ends.{ends_by, wanting_by};
ghost use Rattle.std.specs.Prelude.{◌≡◌};

use rb_api::Ended;

/// How the callers of a door ended: the worst of it.
#[derive(Clone, Copy, Debug, PartialEq, Eq)]
pub enum DoorEnd {
    Well,
    /// Memory was wanting for a reply.
    Wanting,
    /// The line failed: with a caller, or when it was asked for the next one.
    Failed,
}

impl DoorEnd {
    /// And a caller who ended so.
    pub(crate) fn with(self, ended: Ended) -> DoorEnd
        ensures { result ≡ ends_by ended self }
    {
        match ended {
            Ended::LineFault => DoorEnd::Failed,
            Ended::NoMemory => self.wanting(),
            Ended::More => self,
            Ended::Done => self,
        }
    }

    /// And one for whose reply memory was wanting.
    fn wanting(self) -> DoorEnd
        ensures { result ≡ wanting_by self }
    {
        match self {
            DoorEnd::Well => DoorEnd::Wanting,
            DoorEnd::Wanting => DoorEnd::Wanting,
            DoorEnd::Failed => DoorEnd::Failed,
        }
    }
}

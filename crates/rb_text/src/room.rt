ghost use Rattle.std.specs.Prelude.{◌≡◌, ◌+◌, true, false};

/// What all built patterns that are kept may take together, in bytes: 64 MB.
const MOST_BYTES: usize = 64 << 20;

/// Of these at most so many for the patterns of one document.
const MOST_OF_DOCUMENT: usize = 16 << 20;

/// Room for built patterns, in bytes. A pattern for which there is none is built where it is used.
#[derive(Drop)]
pub struct Room {
    left: usize,
}

impl Room {
    /// No built pattern is kept.
    pub fn none() -> Room {
        Room { left: 0 }
    }

    /// For the patterns of one document.
    pub fn of_document() -> Room {
        Room {
            left: MOST_OF_DOCUMENT,
        }
    }

    /// For the patterns of all documents, while one more is read.
    pub fn beside_document() -> Room {
        Room {
            left: MOST_BYTES - MOST_OF_DOCUMENT,
        }
    }

    /// Whether there is room for so many bytes.
    pub(crate) fn has(&self, bytes: usize) -> bool {
        bytes <= self.left
    }

    /// Takes room for so many bytes, if it is there.
    pub(crate) fn take(&mut self, bytes: usize) -> bool
        ensures taken { result ≡ true → self.new.left + bytes ≡ self.old.left }
        ensures kept { result ≡ false → self.new ≡ self.old }
    {
        if bytes > self.left {
            return false;
        }
        self.left -= bytes;
        true
    }
}

//! The id of an execution's job.
ghost use Rattle.rb_tables.specs.JobIds.{near_of};
ghost use Rattle.std.specs.Prelude.{◌≡◌, ◌≤◌, bytes_eq, length, IfOk};

use rb_causes::{NoMemory, Text};
use std::alloc::Global;
use std::marker::Model;

/// So many bytes of an id may stand beside its text.
const NEAR: usize = 40;

/// A job's id, which contracts see as its bytes. A short one stands here a second time: a look at
/// many executions would wait for the memory of each text.
#[derive(Drop)]
pub struct JobId {
    text: Text,
    near: [u8; 40],
}

impl Model for JobId {
    ghost use Rattle.rb_tables.specs.JobIds.{near_of};
    ghost use Rattle.std.specs.Prelude.{◌≡◌, ◌≤◌, ℕ, length, List};

    ghost Value = { List ℕ };

    ghost view = { λ id. id.text };

    ghost invariant = { λ id. length id.text ≤ 40 → id.near ≡ near_of id.text };
}

/// A short text in the memory for so many bytes.
fn near_of(text: &str) -> [u8; 40]
    ensures { length text.now ≤ 40 → result ≡ near_of text.now }
{
    let mut near = [0u8; 40];
    let bytes = text.as_bytes();
    if bytes.len() > NEAR {
        return near;
    }
    near[..bytes.len()].copy_from_slice(bytes);
    near
}

impl JobId {
    /// The id of this text; takes no memory.
    pub fn of(text: Text) -> JobId
        ensures { result ≡ text }
    {
        let near = near_of(text.as_str());
        JobId { text, near }
    }

    /// Its text.
    pub fn as_str(&self) -> &str
        ensures { result.now ≡ self.now }
    {
        self.text.as_str()
    }

    /// A copy of its text.
    pub fn copy(&self, alloc: Global) -> Result<Text, NoMemory>
        ensures { IfOk result (λ text. text ≡ self.now) }
    {
        self.text.copy(alloc)
    }

    /// Whether both are the same; the texts of short ones are not looked at.
    pub fn is(&self, other: &JobId) -> bool
        ensures { result ≡ bytes_eq self.now other.now }
    {
        let text = self.text.as_str();
        let id = other.text.as_str();
        if text.len() > NEAR {
            return text == id;
        }
        if text.len() != id.len() {
            return text == id;
        }
        self.near == other.near
    }
}

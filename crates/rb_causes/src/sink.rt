ghost use Rattle.rb_causes.specs.Sinks.{SinkState, Takes, Writes};

use crate::trouble::Trouble;

/// Where bytes go: standard output or error, or a list in memory.
pub trait Sink {
    /// All bytes that were taken and the place of the first failed write, where this object tells
    /// them, and its counts of faults and of wants of memory.
    ghost shown: { Self → SinkState };

    /// Takes some of the bytes from the front, at least one of a slice that has any.
    fn write(&mut self, bytes: &[u8]) -> Result<usize, Trouble>
        ensures { Takes bytes.now (shown self.old) (shown self.new) result };
}

/// Writes all bytes. After an error a prefix of them was written, and not all.
pub fn put_all<O: Sink>(out: &mut O, bytes: &[u8]) -> Result<(), Trouble>
    ensures { Writes bytes.now (O.shown out.old) (O.shown out.new) result }
{
    let mut done = 0;
    while done < bytes.len() {
        done += out.write(&bytes[done..])?;
    }
    Ok(())
}

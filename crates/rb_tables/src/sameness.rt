//! Whether two jobs are the same.
ghost use Rattle.rb_log.specs.Sameness.{same_job};
ghost use Rattle.std.specs.Prelude.{◌≡◌};

use rb_job::{Job, same_job};
use rb_log::laws::sameness_decides;

/// Whether both jobs are the same, as the rules of a log tell it.
pub fn is_same(this: &Job, other: &Job) -> bool
    ensures { result ≡ same_job this.now other.now }
{
    sameness_decides();
    same_job(this, other)
}

ghost use Rattle.rb_causes.specs.Texts.{pieces};
ghost use Rattle.std.specs.Prelude.{◌≡◌, ◌<◌, IfOk, map, nat_eq};

use std::alloc::{AllocError, Global};

/// The parts of a text between an ASCII sign.
pub(crate) fn parts<'a>(
    alloc: Global,
    sign: char,
    text: &'a str,
) -> Result<Vec<&'a str>, AllocError>
    requires { sign < 128 }
    ensures { IfOk result (λ parts.
        map (λ part. part.now) parts.items ≡ pieces (λ b. nat_eq b sign) text.now) }
{
    text.split(sign).collect(alloc)
}

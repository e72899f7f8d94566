//! A caller as a row holds one.
ghost use Rattle.rb_log.specs.Rows.{who_text};
ghost use Rattle.std.specs.Prelude.{◌≡◌, IfOk};

use rb_acl::Caller;
use rb_causes::{NoMemory, Text};
use std::alloc::Global;
use std::string::String;

/// The user and then the groups, each after a line feed.
pub fn who_text(alloc: Global, caller: &Caller) -> Result<Text, NoMemory>
    ensures { IfOk result (λ who. who ≡ who_text caller.now) }
{
    let mut who = String::from_str(alloc, caller.user.as_str())?;
    for group in caller.groups.as_slice() {
        who.push_str("\n")?;
        who.push_str(group.as_str())?;
    }
    Ok(Text::from_string(who))
}

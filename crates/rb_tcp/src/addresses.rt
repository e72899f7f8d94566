//! Lines over several addresses.
ghost use Rattle.rb_tcp.specs.LineState.{unserved};
ghost use Rattle.std.specs.Prelude.{◌≡◌, All, IfOk, length};

use crate::callers_left::CallersLeft;
use crate::listening::listen_early;
use crate::tcp_line::TcpLine;
use rb_causes::{NoMemory, Text};
use std::alloc::Global;
use std::io::Eprint;
use std::net::{Net, OpenListener};
use std::time::Clock;

/// A line for each address, of which each takes so many callers. An address that stands several
/// times has as many lines on one listener, which is bound at once; where that cannot be, each line
/// tries at its first caller, as a line that is alone does.
pub fn tcp_lines<'a, R: Net + Clock + Eprint>(
    rt: &'a R,
    alloc: Global,
    addresses: &'a [Text],
    left: CallersLeft,
) -> Result<Vec<TcpLine<'a, R>>, NoMemory>
    ensures count { IfOk result (λ lines. length lines.items ≡ length addresses.now) }
    ensures unserved { IfOk result (λ lines. All (λ l. l ≡ unserved left 0) lines.items) }
{
    let mut lines = Vec::with_capacity(alloc, addresses.len())?;
    for address in addresses {
        let address = address.as_str();
        let listener = listener_of(rt, lines.as_slice(), address, addresses);
        lines.push_reserved(TcpLine::over(rt, address, listener, left));
    }
    Ok(lines)
}

/// The listener of the first line of the same address, or a new one where more of them follow.
fn listener_of<'a, R: Net + Clock + Eprint>(
    rt: &R,
    lines: &[TcpLine<'a, R>],
    address: &str,
    addresses: &[Text],
) -> Option<R::Listener> {
    for line in lines {
        if line.address() == address {
            return line.share();
        }
    }
    if is_repeated(addresses, address) {
        listen_early(rt, address)
    } else {
        None
    }
}

/// Whether an address stands several times.
fn is_repeated(addresses: &[Text], address: &str) -> bool {
    let mut found = false;
    for other in addresses {
        if other.as_str() == address {
            if found {
                return true;
            }
            found = true;
        }
    }
    false
}

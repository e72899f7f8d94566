//! A listener on an address, and the connections that it takes.
use std::io::{Eprint, ErrorKind};
use std::net::{Net, OpenListener, SocketAddr, TcpListener};
use std::time::{Clock, Duration};
use std::{io, thread};

/// How often one caller is waited for anew where that failed for the moment alone: for years.
const TRIES: u32 = u32::MAX;

/// How long nothing is tried then, in milliseconds.
const PAUSE: u64 = 50;

/// What Linux answers, and a listener outlives: the process, or the system, has no descriptor left,
/// no memory or no buffer; or the network has failed the connection that was to be taken.
const PASSING: [i32; 12] = [24, 23, 12, 105, 64, 71, 92, 100, 101, 110, 112, 113];

/// Listens on the address, and says so on standard error; `None` where that cannot be, which is
/// told there too.
pub(crate) fn listen<R: Net + Eprint>(rt: &R, address: &str) -> Option<R::Listener> {
    let Ok(place) = address.parse::<SocketAddr>() else {
        let _told = eprintln!(rt;
            "rundeskd: {address}: no address as 127.0.0.1:4440 or [::1]:4440"
        );
        return None;
    };
    match TcpListener::bind(rt, place) {
        Ok(listener) => {
            tell_bound(rt, &listener, place);
            Some(listener)
        }
        Err(error) => {
            let _told = eprintln!(rt; "rundeskd: {address}: {error}");
            None
        }
    }
}

/// The same, where what cannot be is not told: who asks for a caller tries once more.
pub(crate) fn listen_early<R: Net + Eprint>(rt: &R, address: &str) -> Option<R::Listener> {
    let place = address.parse::<SocketAddr>().ok()?;
    let listener = TcpListener::bind(rt, place).ok()?;
    tell_bound(rt, &listener, place);
    Some(listener)
}

fn tell_bound<R: Eprint, L: OpenListener>(rt: &R, listener: &L, place: SocketAddr) {
    // For the port 0 the system chooses one.
    let bound = listener.local_addr().unwrap_or(place);
    let _told = eprintln!(rt; "rundeskd: {bound}: serving");
}

/// The next connection. What fails for the moment alone is tried again after a pause; where no
/// connection can be had that is told on standard error, and at the first of those pauses too.
pub(crate) fn next_connection<R: Net + Clock + Eprint>(
    rt: &R,
    address: &str,
    listener: &R::Listener,
) -> Option<R::Stream> {
    let mut is_first = true;
    for _ in 0..TRIES {
        let error = match listener.accept() {
            Ok((stream, _)) => return Some(stream),
            Err(error) => error,
        };
        if is_first || !is_passing(&error) {
            let _told = eprintln!(rt; "rundeskd: {address}: {error}");
        }
        if !is_passing(&error) {
            return None;
        }
        is_first = false;
        thread::sleep(rt, Duration::from_millis(PAUSE));
    }
    None
}

/// A caller who was gone before he was taken, or something that is wanting for the moment.
fn is_passing(error: &io::Error) -> bool {
    let is_gone = error.kind() == ErrorKind::ConnectionAborted;
    is_gone
        || error
            .raw_os_error()
            .is_some_and(|code| PASSING.contains(&code))
}

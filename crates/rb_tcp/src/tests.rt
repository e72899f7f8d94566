//! Callers over the loopback interface, on one thread: a connection waits to be taken.
use crate::{CallersLeft, TcpLine};
use rb_causes::{Failed, Line, Trouble};
use std::cell::Cell;
use std::fmt::Display;
use std::io;
use std::io::{Eprint, Read, Write};
use std::net::{Ipv4Addr, Net, OpenListener, Shutdown, SocketAddr, TcpListener, TcpStream};
use std::os::fd::{AsRawFd, RawFd};
use std::test::Fail;
use std::time::{Clock, Duration};

/// The system's network under a clock that goes on by so many seconds whenever it is read, and
/// counts the pauses that nobody has to wait for.
#[derive(Drop)]
struct Hurried<'a> {
    rt: &'a HostRuntime,
    step: u64,
    seconds: Cell<u64>,
    pauses: Cell<u32>,
}

impl<'a> Hurried<'a> {
    fn new(rt: &'a HostRuntime, step: u64) -> Hurried<'a> {
        Hurried {
            rt,
            step,
            seconds: Cell::new(0),
            pauses: Cell::new(0),
        }
    }
}

impl<'a> Clock for Hurried<'a> {
    fn monotonic(&self) -> io::Result<Duration> {
        let now = self.seconds.get().saturating_add(self.step);
        self.seconds.set(now);
        Ok(Duration::from_secs(now))
    }

    fn since_1970(&self) -> io::Result<Duration> {
        self.monotonic()
    }

    fn sleep(&self, _duration: Duration) {
        self.pauses.set(self.pauses.get().saturating_add(1));
    }
}

impl<'a> Eprint for Hurried<'a> {
    fn eprint<D: Display + Drop>(&self, value: D) -> io::Result<()> {
        self.rt.eprint(value)
    }

    fn eprintln<D: Display + Drop>(&self, value: D) -> io::Result<()> {
        self.rt.eprintln(value)
    }
}

impl<'a> Net for Hurried<'a> {
    type Stream = TcpStream;

    type Listener = Refusing;

    fn bind(&self, address: SocketAddr) -> io::Result<Refusing> {
        Ok(Refusing::new(self.rt.bind(address)?, 0, 0))
    }

    fn connect(&self, address: SocketAddr) -> io::Result<TcpStream> {
        self.rt.connect(address)
    }
}

/// A listener that answers its first calls by an error of the system.
#[derive(Drop)]
struct Refusing {
    listener: TcpListener,
    code: i32,
    left: Cell<u32>,
}

impl Refusing {
    fn new(listener: TcpListener, code: i32, refusals: u32) -> Refusing {
        Refusing {
            listener,
            code,
            left: Cell::new(refusals),
        }
    }
}

impl OpenListener for Refusing {
    type Stream = TcpStream;

    fn accept(&self) -> io::Result<(TcpStream, SocketAddr)> {
        let left = self.left.get();
        if left > 0 {
            self.left.set(left.saturating_sub(1));
            return Err(io::Error::from_raw_os_error(self.code));
        }
        self.listener.accept()
    }
}

impl AsRawFd for Refusing {
    fn as_raw_fd(&self) -> RawFd {
        self.listener.as_raw_fd()
    }
}

fn listener_of(rt: &HostRuntime) -> Result<(TcpListener, SocketAddr), Fail> {
    let listener = TcpListener::bind(rt, SocketAddr::from((Ipv4Addr::LOCALHOST, 0)))?;
    let address = listener.local_addr()?;
    Ok((listener, address))
}

/// Whether the next caller is this one, who asks, sends nothing more, and takes what he is given.
fn is_next<L: Line>(line: &mut L, caller: &mut TcpStream) -> Result<bool, Fail> {
    let mut bytes = [0u8; 16];
    caller.write_all(b"asked")?;
    caller.shutdown(Shutdown::Write)?;
    let has_come = line.next_caller() == Ok(true);
    let is_heard = line.read(&mut bytes) == Ok(5) && bytes.starts_with(b"asked");
    let has_ended = line.read(&mut bytes) == Ok(0);
    let is_given = line.write(b"given") == Ok(5);
    Ok(has_come && is_heard && has_ended && is_given)
}

/// Whether the caller has what he was given, and then the end.
fn has_reply(caller: &mut TcpStream) -> Result<bool, Fail> {
    let mut bytes = [0u8; 16];
    let is_whole = caller.read(&mut bytes)? == 5 && bytes.starts_with(b"given");
    let has_ended = caller.read(&mut bytes)? == 0;
    Ok(is_whole && has_ended)
}

#[test]
fn callers_are_served_one_after_another(rt: HostRuntime) -> Result<(), Fail> {
    let (listener, address) = listener_of(&rt)?;
    let mut line = TcpLine::over(&rt, "a bound address", Some(listener), CallersLeft::Only(2));
    let mut first = TcpStream::connect(&rt, address)?;
    let mut second = TcpStream::connect(&rt, address)?;
    assert!(rt; is_next(&mut line, &mut first)?);
    assert!(rt; is_next(&mut line, &mut second)?);
    assert!(rt; line.next_caller() == Ok(false));
    assert!(rt; line.next_caller() == Ok(false));
    assert!(rt; has_reply(&mut first)?);
    assert!(rt; has_reply(&mut second)?);
    Ok(())
}

#[test]
fn a_reply_is_not_lost_where_more_was_sent_than_read(rt: HostRuntime) -> Result<(), Fail> {
    let (listener, address) = listener_of(&rt)?;
    let mut line = TcpLine::over(&rt, "a bound address", Some(listener), CallersLeft::Any);
    let mut caller = TcpStream::connect(&rt, address)?;
    caller.write_all(&[b'x'; 10_000])?;
    caller.shutdown(Shutdown::Write)?;
    assert!(rt; line.next_caller() == Ok(true));
    let mut bytes = [0u8; 16];
    assert!(rt; line.read(&mut bytes) == Ok(16));
    assert!(rt; line.write(b"given") == Ok(5));
    let _next = TcpStream::connect(&rt, address)?;
    assert!(rt; line.next_caller() == Ok(true));
    assert!(rt; caller.read(&mut bytes)? == 5);
    assert!(rt; bytes.starts_with(b"given"));
    assert!(rt; caller.read(&mut bytes)? == 0);
    Ok(())
}

#[test]
fn what_cannot_be_bound_is_a_fault(rt: HostRuntime) -> Result<(), Fail> {
    let (_listener, taken) = listener_of(&rt)?;
    let alloc = rt.alloc();
    let taken = format!(in alloc; "{taken}")?;
    for address in [
        "",
        "localhost:4440",
        "127.0.0.1",
        "127.0.0.1:65536",
        taken.as_str(),
    ] {
        let mut line = TcpLine::new(&rt, address, CallersLeft::Any);
        assert!(rt; line.next_caller() == Err(Failed), "{address}");
        assert!(rt; line.read(&mut [0; 4]) == Err(Failed), "{address}");
        assert!(rt; line.write(b"given") == Err(Trouble::Failed), "{address}");
    }
    Ok(())
}

#[test]
fn nobody_is_served_who_was_not_taken(rt: HostRuntime) -> Result<(), Fail> {
    let mut line = TcpLine::new(&rt, "127.0.0.1:4440", CallersLeft::Only(0));
    assert!(rt; line.next_caller() == Ok(false));
    assert!(rt; line.read(&mut [0; 4]) == Err(Failed));
    assert!(rt; line.read(&mut []) == Err(Failed));
    assert!(rt; line.write(b"given") == Err(Trouble::Failed));
    assert!(rt; line.write(b"") == Err(Trouble::Failed));
    assert!(rt; line.next_caller() == Ok(false));
    Ok(())
}

#[test]
fn an_end_stays_and_no_read_of_nothing_is_one(rt: HostRuntime) -> Result<(), Fail> {
    let (listener, address) = listener_of(&rt)?;
    let mut line = TcpLine::over(&rt, "a bound address", Some(listener), CallersLeft::Only(1));
    let mut caller = TcpStream::connect(&rt, address)?;
    caller.write_all(b"asked")?;
    caller.shutdown(Shutdown::Write)?;
    let mut bytes = [0u8; 16];
    assert!(rt; line.next_caller() == Ok(true));
    assert!(rt; line.read(&mut []) == Ok(0));
    assert!(rt; line.read(&mut bytes) == Ok(5));
    assert!(rt; line.read(&mut bytes) == Ok(0));
    assert!(rt; line.read(&mut bytes) == Ok(0));
    assert!(rt; line.write(b"") == Ok(0));
    assert!(rt; line.write(b"given") == Ok(5));
    assert!(rt; line.next_caller() == Ok(false));
    assert!(rt; has_reply(&mut caller)?);
    Ok(())
}

#[test]
fn a_caller_who_takes_too_long_has_ended(rt: HostRuntime) -> Result<(), Fail> {
    let (listener, address) = listener_of(&rt)?;
    let hurried = Hurried::new(&rt, 25);
    let mut line = TcpLine::over(
        &hurried,
        "a bound address",
        Some(Refusing::new(listener, 0, 0)),
        CallersLeft::Any,
    );
    let mut caller = TcpStream::connect(&rt, address)?;
    caller.write_all(b"asked")?;
    let mut bytes = [0u8; 1];
    assert!(rt; line.next_caller() == Ok(true));
    // The clock is read once for each: at 0, 25 and 50 seconds, and then behind the 60th.
    assert!(rt; line.read(&mut bytes) == Ok(1));
    assert!(rt; line.read(&mut bytes) == Ok(1));
    assert!(rt; line.read(&mut bytes) == Ok(1));
    assert!(rt; line.read(&mut bytes) == Ok(0));
    assert!(rt; line.read(&mut bytes) == Ok(0));
    assert!(rt; line.write(b"given") == Ok(5));
    Ok(())
}

#[test]
fn a_reply_gives_the_caller_his_time_anew(rt: HostRuntime) -> Result<(), Fail> {
    let (listener, address) = listener_of(&rt)?;
    let hurried = Hurried::new(&rt, 25);
    let mut line = TcpLine::over(
        &hurried,
        "a bound address",
        Some(Refusing::new(listener, 0, 0)),
        CallersLeft::Any,
    );
    let mut caller = TcpStream::connect(&rt, address)?;
    caller.write_all(b"asked")?;
    let mut bytes = [0u8; 1];
    assert!(rt; line.next_caller() == Ok(true));
    for _ in 0..5 {
        assert!(rt; line.read(&mut bytes) == Ok(1));
        assert!(rt; line.write(b"g") == Ok(1));
    }
    Ok(())
}

#[test]
fn a_reply_that_is_not_taken_is_a_fault(rt: HostRuntime) -> Result<(), Fail> {
    let (listener, address) = listener_of(&rt)?;
    let hurried = Hurried::new(&rt, 15);
    let mut line = TcpLine::over(
        &hurried,
        "a bound address",
        Some(Refusing::new(listener, 0, 0)),
        CallersLeft::Any,
    );
    let _caller = TcpStream::connect(&rt, address)?;
    assert!(rt; line.next_caller() == Ok(true));
    // What the system keeps on the way is taken at first.
    let mut is_taken = true;
    for _ in 0..1_000 {
        is_taken = is_taken && line.write(&[b'x'; 65_536]).is_ok();
    }
    assert!(rt; !is_taken);
    assert!(rt; line.write(b"given") == Err(Trouble::Failed));
    Ok(())
}

#[test]
fn what_is_wanting_for_the_moment_is_waited_for(rt: HostRuntime) -> Result<(), Fail> {
    // No descriptor of the process, of the system; a caller who was gone; no buffer; no route.
    for code in [24, 23, 103, 105, 113] {
        let (listener, address) = listener_of(&rt)?;
        let hurried = Hurried::new(&rt, 0);
        let refusing = Refusing::new(listener, code, 2_000);
        let mut line = TcpLine::over(
            &hurried,
            "a bound address",
            Some(refusing),
            CallersLeft::Only(1),
        );
        let mut caller = TcpStream::connect(&rt, address)?;
        assert!(rt; is_next(&mut line, &mut caller)?, "{code}");
        assert!(rt; hurried.pauses.get() == 2_000, "{code}");
        assert!(rt; line.next_caller() == Ok(false), "{code}");
    }
    Ok(())
}

#[test]
fn a_broken_listener_is_a_fault_and_takes_no_caller(rt: HostRuntime) -> Result<(), Fail> {
    let (listener, address) = listener_of(&rt)?;
    let hurried = Hurried::new(&rt, 0);
    // EINVAL: the socket does not listen.
    let refusing = Refusing::new(listener, 22, 1);
    let mut line = TcpLine::over(
        &hurried,
        "a bound address",
        Some(refusing),
        CallersLeft::Only(1),
    );
    let mut caller = TcpStream::connect(&rt, address)?;
    assert!(rt; line.next_caller() == Err(Failed));
    assert!(rt; hurried.pauses.get() == 0);
    assert!(rt; is_next(&mut line, &mut caller)?);
    assert!(rt; line.next_caller() == Ok(false));
    Ok(())
}

ghost use Rattle.rb_causes.specs.Causes.{HasCause, HasTrouble, Rose};
ghost use Rattle.rb_tcp.specs.LineState.{AnswersAsking, Reads, ended_after, unserved};
ghost use Rattle.std.specs.Prelude.{◌≡◌, ◌≤◌, ◌<◌, None, length, IfOk, IsErr, OnErr};

use crate::caller::Caller;
use crate::callers_left::CallersLeft;
use crate::listening::{listen, next_connection};
use rb_causes::{Failed, Line, Trouble};
use std::io::{self, Eprint};
use std::marker::Model;
use std::net::{Net, OpenListener};
use std::time::Clock;

/// The callers of one address, over TCP, one after another. The address is bound when the first of
/// them is asked for. What is wrong with the address or with a caller is told on standard error.
///
/// A caller who sends nothing for 30 seconds, or takes more than 60 seconds for what comes before
/// the next reply, is one whose input ended; who takes no byte of a reply for 30 seconds is a
/// fault.
#[derive(Drop)]
pub struct TcpLine<'a, R: Net + Clock + Eprint> {
    rt: &'a R,
    address: &'a str,
    left: CallersLeft,
    listener: Option<R::Listener>,
    caller: Option<Caller<R::Stream>>,
    faults: u64,
}

impl<'a, R: Net + Clock + Eprint> Model for TcpLine<'a, R> {
    ghost use Rattle.rb_tcp.specs.LineState.{LineState};
    ghost use Rattle.std.specs.Prelude.{option_map};

    ghost Value = { LineState };

    ghost view = { λ l. record {
      left = l.left;
      ended = option_map (λ caller. caller.ended) l.caller;
      faults = l.faults;
    } };
}

impl<'a, R: Net + Clock + Eprint> TcpLine<'a, R> {
    /// The address is `IP:PORT` or `[IP6]:PORT`; what else it is is told at the first caller.
    pub fn new(rt: &'a R, address: &'a str, left: CallersLeft) -> TcpLine<'a, R>
        ensures { result ≡ unserved left 0 }
    {
        TcpLine {
            rt,
            address,
            left,
            listener: None,
            caller: None,
            faults: 0,
        }
    }

    /// Callers whom this listener takes, where there is one.
    pub(crate) fn over(
        rt: &'a R,
        address: &'a str,
        listener: Option<R::Listener>,
        left: CallersLeft,
    ) -> TcpLine<'a, R>
        ensures { result ≡ unserved left 0 }
    {
        TcpLine {
            rt,
            address,
            left,
            listener,
            caller: None,
            faults: 0,
        }
    }

    pub(crate) fn address(&self) -> &str {
        self.address
    }

    /// Its listener once more, where it is bound.
    pub(crate) fn share(&self) -> Option<R::Listener> {
        match &self.listener {
            Some(listener) => listener.try_clone().ok(),
            None => None,
        }
    }

    /// Leaves the caller who is served, if there is one.
    fn leave(&mut self)
        ensures { self.new ≡ unserved self.old.left self.old.faults }
    {
        if let Some(caller) = self.caller.take() {
            caller.leave(self.rt);
        }
    }

    fn connection(&mut self) -> Option<R::Stream>
        ensures { self.new ≡ self.old }
    {
        if self.listener.is_none() {
            self.listener = listen(self.rt, self.address);
        }
        match &self.listener {
            Some(listener) => next_connection(self.rt, self.address, listener),
            None => None,
        }
    }

    /// Counts a fault.
    fn blame(&mut self)
        ensures rose { Rose self.old.faults self.new.faults }
        ensures later { self.old.faults ≤ self.new.faults }
        ensures still { self.new ≡ record self.old { faults = self.new.faults } }
    {
        self.faults = self.faults.saturating_add(1);
    }

    /// Counts a fault of a caller, and tells of it.
    fn tell(&mut self, error: &io::Error)
        ensures rose { Rose self.old.faults self.new.faults }
        ensures later { self.old.faults ≤ self.new.faults }
        ensures still { self.new ≡ record self.old { faults = self.new.faults } }
    {
        let address = self.address;
        let _told = eprintln!(self.rt; "rundeskd: {address}: a caller: {error}");
        self.blame();
    }
}

impl<'a, R: Net + Clock + Eprint> Line for TcpLine<'a, R> {
    ghost callers = { λ _. None };

    ghost faults = { λ l. l.faults };

    fn next_caller(&mut self) -> Result<bool, Failed>
        ensures asking { AnswersAsking self.old.left result self.new.left }
        ensures ended { self.new.ended ≡ ended_after result }
        ensures cause { HasCause self.old.faults self.new.faults result }
    {
        self.leave();
        if !self.left.has_left() {
            return Ok(false);
        }
        match self.connection() {
            Some(stream) => {
                self.left = self.left.one_less();
                self.caller = Some(Caller::new(stream));
                Ok(true)
            }
            None => {
                self.blame();
                Err(Failed)
            }
        }
    }

    fn read(&mut self, into: &mut [u8]) -> Result<usize, Failed>
        ensures count { IfOk result (λ n. n ≤ length into.new) }
        ensures end { IfOk result (λ n. Reads self.old.ended n (length into.new) self.new.ended) }
        ensures err { OnErr result (self.new.ended ≡ self.old.ended) }
        ensures none { self.old.ended ≡ None → IsErr result }
        ensures left { self.new.left ≡ self.old.left }
        ensures cause { HasCause self.old.faults self.new.faults result }
    {
        let Some(caller) = &mut self.caller else {
            self.blame();
            return Err(Failed);
        };
        match caller.read(self.rt, into) {
            Ok(count) => Ok(count),
            Err(error) => {
                self.tell(&error);
                Err(Failed)
            }
        }
    }

    fn write(&mut self, from: &[u8]) -> Result<usize, Trouble>
        ensures count { IfOk result (λ n. (n ≤ length from.now) × (0 < length from.now → 0 < n)) }
        ensures none { self.old.ended ≡ None → IsErr result }
        ensures still { self.new ≡ record self.old { faults = self.new.faults } }
        ensures cause { HasTrouble self.old.faults self.new.faults result }
    {
        let Some(caller) = &mut self.caller else {
            self.blame();
            return Err(Trouble::Failed);
        };
        match caller.write(self.rt, from) {
            Ok(count) => Ok(count),
            Err(error) => {
                self.tell(&error);
                Err(Trouble::Failed)
            }
        }
    }
}

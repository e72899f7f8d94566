//! What is said with a caller: one exchange, and all of them.
ghost use Rattle.rb_causes.specs.Causes.{Rose};
ghost use Rattle.rb_door.specs.Serving.{ServesCaller, ServesNext, ServesRequest};
ghost use Rattle.rb_door.specs.Standing.{GoesOn};
ghost use Rattle.rb_log.specs.Rows.{is_clean_caller};
ghost use Rattle.rb_wire.specs.Requests.{most_requests};
ghost use Rattle.std.specs.List.{list_all};
ghost use Rattle.std.specs.Prelude.{◌≡◌, ◌≤◌, ◌<◌, ◌≢◌, true};

use crate::answering::{answer_request, give_fault, give_wanting};
use crate::heeded::Heeded;
use crate::laws::loops_serve;
use rb_api::{ApiRouter, Ended, Token};
use rb_causes::{Clock, Line};
use rb_log::Clerk;
use rb_wire::{DoorBuffer, Heard, read_request};
use std::alloc::Global;

/// Reads one request, makes at most one desk call for it, and writes one reply. No user and no
/// group of the tokens has a line feed or a comma.
pub fn serve_next<C: Clerk, L: Line, T: Clock>(
    alloc: Global,
    clerk: &mut C,
    line: &mut L,
    clock: &T,
    router: &ApiRouter,
    tokens: &[Token],
    buffer: &mut DoorBuffer,
) -> Heeded
    requires { list_all (λ t. is_clean_caller t.caller) tokens.now ≡ true }
    ensures served { ServesNext (T.may_be clock.now) tokens.now
        (record {
          clerk = C.told clerk.old;
          line = record { callers = L.callers line.old; pending = buffer.old };
        })
        (record {
          clerk = C.told clerk.new;
          line = record { callers = L.callers line.new; pending = buffer.new };
        })
        result }
    ensures goes { GoesOn (C.told clerk.old) (C.told clerk.new) }
    ensures more { result.ended ≡ Ended.More
        → (buffer.old.given < buffer.new.given) × (buffer.new.given < most_requests) }
    ensures cause { result.ended ≡ Ended.LineFault
        → Rose (L.faults line.old) (L.faults line.new) }
    ensures later { L.faults line.old ≤ L.faults line.new }
{
    match read_request(alloc, line, buffer) {
        Heard::Asked(request) => Heeded {
            asked: true,
            ended: answer_request(alloc, clerk, line, clock, router, tokens, &request),
        },
        Heard::End => Heeded {
            asked: false,
            ended: Ended::Done,
        },
        Heard::Broken(fault) => Heeded {
            asked: false,
            ended: give_fault(line, fault),
        },
        Heard::LineFault => Heeded {
            asked: false,
            ended: Ended::LineFault,
        },
        Heard::NoMemory => Heeded {
            asked: true,
            ended: give_wanting(line),
        },
    }
}

/// The same, where only the end is asked for.
pub fn serve_request<C: Clerk, L: Line, T: Clock>(
    alloc: Global,
    clerk: &mut C,
    line: &mut L,
    clock: &T,
    router: &ApiRouter,
    tokens: &[Token],
    buffer: &mut DoorBuffer,
) -> Ended
    requires { list_all (λ t. is_clean_caller t.caller) tokens.now ≡ true }
    ensures served { ServesRequest (T.may_be clock.now) tokens.now
        (record {
          clerk = C.told clerk.old;
          line = record { callers = L.callers line.old; pending = buffer.old };
        })
        (record {
          clerk = C.told clerk.new;
          line = record { callers = L.callers line.new; pending = buffer.new };
        })
        result }
    ensures goes { GoesOn (C.told clerk.old) (C.told clerk.new) }
    ensures more { result ≡ Ended.More
        → (buffer.old.given < buffer.new.given) × (buffer.new.given < most_requests) }
    ensures cause { result ≡ Ended.LineFault → Rose (L.faults line.old) (L.faults line.new) }
    ensures later { L.faults line.old ≤ L.faults line.new }
{
    serve_next(alloc, clerk, line, clock, router, tokens, buffer).ended
}

/// Serves the caller to the end. It never answers More.
pub fn serve_caller<C: Clerk, L: Line, T: Clock>(
    alloc: Global,
    clerk: &mut C,
    line: &mut L,
    clock: &T,
    router: &ApiRouter,
    tokens: &[Token],
    buffer: &mut DoorBuffer,
) -> Ended
    requires { list_all (λ t. is_clean_caller t.caller) tokens.now ≡ true }
    ensures served { ServesCaller (T.may_be clock.now) tokens.now
        (record {
          clerk = C.told clerk.old;
          line = record { callers = L.callers line.old; pending = buffer.old };
        })
        (record {
          clerk = C.told clerk.new;
          line = record { callers = L.callers line.new; pending = buffer.new };
        })
        result }
    ensures goes { GoesOn (C.told clerk.old) (C.told clerk.new) }
    ensures last { result ≢ Ended.More }
    ensures cause { result ≡ Ended.LineFault → Rose (L.faults line.old) (L.faults line.new) }
    ensures later { L.faults line.old ≤ L.faults line.new }
{
    loops_serve(clock);
    let mut ended = Ended::More;
    while ended == Ended::More {
        ended = serve_request(alloc, clerk, line, clock, router, tokens, buffer);
    }
    ended
}

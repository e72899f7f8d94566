//! What a caller is given for what was heard.
ghost use Rattle.rb_reply.specs.Errors.{Reply, lost_reply, memory_reply, printed, wire_reply};
ghost use Rattle.rb_api.specs.Replies.{IsNoTask, refused_reply, reply_to};
ghost use Rattle.rb_causes.specs.Causes.{Rose};
ghost use Rattle.rb_door.specs.Answering.{IsGiven, IsReplyMade, IsRequestMet, ended_given};
ghost use Rattle.rb_door.specs.Exchanges.{MayReply};
ghost use Rattle.rb_door.specs.Standing.{GoesOn};
ghost use Rattle.rb_log.specs.Rows.{is_clean_caller};
ghost use Rattle.rb_wire.specs.Responses.{is_status, response_text};
ghost use Rattle.std.specs.List.{list_all};
ghost use Rattle.std.specs.Prelude.{◌≡◌, ◌≤◌, ◌⊎◌, IsTrue, None, true};

use rb_api::laws::{
    answers_are_told, calls_are_the_callers, calls_may_be_asked, statuses_are_served,
};
use rb_api::{
    ApiRouter, Ended, RequestFault, Response, Token, asked, lost, memory_wanting, refused,
    reply_to, store_failed,
};
use rb_causes::{Clock, Line, NoMemory, Trouble};
use rb_log::{Answer, Clerk};
use rb_wire::{Request, WireFault, write_response};
use std::alloc::Global;

/// Makes the desk call of a request, if it makes one, and gives the caller the reply.
pub(crate) fn answer_request<C: Clerk, L: Line, T: Clock>(
    alloc: Global,
    clerk: &mut C,
    line: &mut L,
    clock: &T,
    router: &ApiRouter,
    tokens: &[Token],
    request: &Request,
) -> Ended
    requires { list_all (λ t. is_clean_caller t.caller) tokens.now ≡ true }
    ensures met { IsRequestMet (T.may_be clock.now) tokens.now request.now
        (record { clerk = C.told clerk.old; callers = L.callers line.old })
        (record { clerk = C.told clerk.new; callers = L.callers line.new }) result }
    ensures goes { GoesOn (C.told clerk.old) (C.told clerk.new) }
    ensures cause { result ≡ Ended.LineFault → Rose (L.faults line.old) (L.faults line.new) }
    ensures later { L.faults line.old ≤ L.faults line.new }
{
    statuses_are_served();
    calls_are_the_callers();
    let response = response_to(alloc, clerk, clock, router, tokens, request);
    give(
        line,
        response.status,
        response.body.as_slice(),
        request.close,
    )
}

/// The reply to a request, with its desk call made.
fn response_to<C: Clerk, T: Clock>(
    alloc: Global,
    clerk: &mut C,
    clock: &T,
    router: &ApiRouter,
    tokens: &[Token],
    request: &Request,
) -> Response
    requires { list_all (λ t. is_clean_caller t.caller) tokens.now ≡ true }
    ensures { IsReplyMade (T.may_be clock.now) tokens.now request.now
        (C.told clerk.old) (C.told clerk.new) result }
{
    answers_are_told();
    calls_are_the_callers();
    calls_may_be_asked();
    let at = clock.now();
    match asked(alloc, router, tokens, request, at) {
        Ok(Ok(call)) => reply_or_lost(alloc, router, request, clerk.act(call)),
        Ok(Err(fault)) => refusal(alloc, router, request, fault),
        Err(NoMemory) => memory_wanting(),
    }
}

/// The reply to a request that asks nothing of the desk.
fn refusal(alloc: Global, router: &ApiRouter, request: &Request, fault: RequestFault) -> Response
    ensures { (result ≡ printed (refused_reply request.now fault))
        ⊎ (result ≡ printed memory_reply) }
{
    match refused(alloc, router, request, fault) {
        Ok(response) => response,
        Err(NoMemory) => memory_wanting(),
    }
}

/// The reply to what the desk answered. A store fault and want of memory have replies that take
/// none; where memory is wanting for another, that is told.
fn reply_or_lost(alloc: Global, router: &ApiRouter, request: &Request, answer: Answer) -> Response
    requires { IsNoTask answer }
    ensures { (reply : Reply) × MayReply request.now answer reply × (result ≡ printed reply) }
{
    match answer {
        Answer::StoreFault => store_failed(),
        Answer::NoMemory => memory_wanting(),
        answer => printed_or_lost(alloc, router, request, answer),
    }
}

/// The reply that the rules have for an answer, or that memory is wanting for it.
fn printed_or_lost(alloc: Global, router: &ApiRouter, request: &Request, answer: Answer) -> Response
    requires { IsNoTask answer }
    ensures { (result ≡ printed (reply_to request.now answer)) ⊎ (result ≡ printed lost_reply) }
{
    match reply_to(alloc, router, request, answer) {
        Ok(response) => response,
        Err(NoMemory) => lost(),
    }
}

/// The status of the reply to bytes that are no request.
fn fault_status(fault: WireFault) -> u16
    ensures { result ≡ (wire_reply fault).status }
{
    match fault {
        WireFault::BadHead => 400,
        WireFault::TransferEncoding => 501,
        WireFault::BadLength => 400,
        WireFault::TooLong => 413,
        WireFault::Cut => 400,
    }
}

/// The body of that reply, which takes no memory.
fn fault_body(fault: WireFault) -> &'static [u8]
    ensures { result.now ≡ (printed (wire_reply fault)).body }
{
    match fault {
        WireFault::BadHead => {
            b"{\"apiversion\":34,\"error\":true,\"errorCode\":\"bad-head\",\"message\":\"request head not read\"}".as_slice()
        }
        WireFault::TransferEncoding => {
            b"{\"apiversion\":34,\"error\":true,\"errorCode\":\"transfer-encoding\",\"message\":\"transfer encoding not read\"}".as_slice()
        }
        WireFault::BadLength => {
            b"{\"apiversion\":34,\"error\":true,\"errorCode\":\"bad-length\",\"message\":\"content length not read\"}".as_slice()
        }
        WireFault::TooLong => {
            b"{\"apiversion\":34,\"error\":true,\"errorCode\":\"too-long\",\"message\":\"body too long\"}".as_slice()
        }
        WireFault::Cut => {
            b"{\"apiversion\":34,\"error\":true,\"errorCode\":\"cut\",\"message\":\"body cut\"}".as_slice()
        }
    }
}

/// Gives the caller whose bytes are no request the last word.
pub(crate) fn give_fault<L: Line>(line: &mut L, fault: WireFault) -> Ended
    ensures given { IsGiven (response_text (wire_reply fault).status
        (printed (wire_reply fault)).body true) true
        (L.callers line.old) (L.callers line.new) result }
    ensures cause { result ≡ Ended.LineFault → Rose (L.faults line.old) (L.faults line.new) }
    ensures later { L.faults line.old ≤ L.faults line.new }
{
    statuses_are_served();
    give(line, fault_status(fault), fault_body(fault), true)
}

/// Gives the caller for whose request there is no memory the last word.
pub(crate) fn give_wanting<L: Line>(line: &mut L) -> Ended
    ensures given { IsGiven (response_text memory_reply.status (printed memory_reply).body true)
        true (L.callers line.old) (L.callers line.new) result }
    ensures cause { result ≡ Ended.LineFault → Rose (L.faults line.old) (L.faults line.new) }
    ensures later { L.faults line.old ≤ L.faults line.new }
{
    let response = memory_wanting();
    give(line, response.status, response.body.as_slice(), true)
}

/// Gives the caller a reply, and says how the exchange ended by that.
fn give<L: Line>(line: &mut L, status: u16, body: &[u8], close: bool) -> Ended
    requires { IsTrue (is_status status) }
    ensures given { IsGiven (response_text status body.now close) close
        (L.callers line.old) (L.callers line.new) result }
    ensures cause { result ≡ Ended.LineFault → Rose (L.faults line.old) (L.faults line.new) }
    ensures later { L.faults line.old ≤ L.faults line.new }
{
    match write_response(line, status, body, close) {
        Ok(()) => ended_written(close),
        Err(Trouble::Failed) => Ended::LineFault,
        Err(Trouble::NoMemory) => Ended::NoMemory,
    }
}

/// How an exchange ended whose reply was written.
fn ended_written(close: bool) -> Ended
    ensures { result ≡ ended_given None close }
{
    if close { Ended::Done } else { Ended::More }
}

ghost use Rattle.std.specs.Prelude.{◌≡◌, ◌+◌, ◌||◌, IfOk, OnErr, IsUtf8, nat_le, length, take};
ghost use Rattle.std.specs.Prelude.{drop};
ghost use Rattle.httparse.specs.Grammar.{RequestHead};
ghost use Rattle.httparse.specs.Spans.{IsWithin, span_bytes};
ghost use Rattle.rb_causes.specs.Outside.{next_call};
ghost use Rattle.rb_wire.specs.Fields.{AreWithin, token_in, closes_in};
ghost use Rattle.rb_wire.specs.Heads.{target_path, query_of, text_if};
ghost use Rattle.rb_wire.specs.Requests.{ComesNext, Holds, request_of, most_requests};
ghost use Rattle.rb_wire.specs.Seeing.{StandsWhole, IsHeadAt};

use crate::buffer::DoorBuffer;
use crate::fields::{first_value, has_value};
use crate::heard::Request;
use httparse::spans::{HeaderSpan, RequestSpans, Span};
use rb_causes::{Items, NoMemory, Text};
use std::alloc::Global;
use std::str;

/// So many requests of one caller are read: the last of them closes.
const MOST_REQUESTS: u64 = 1_000;

/// Takes the request that stands whole in the buffer. Want of memory leaves it there.
pub(crate) fn take_request(
    alloc: Global,
    buffer: &mut DoorBuffer,
    spans: &[HeaderSpan],
    parts: RequestSpans,
    size: usize,
) -> Result<Request, NoMemory>
    requires { StandsWhole buffer.old.bytes spans.now parts size }
    ensures ok { IfOk result (λ request.
        ComesNext buffer.old.given buffer.old.bytes (Holds request buffer.new.bytes)) }
    ensures given { IfOk result (λ request. buffer.new.given ≡ next_call buffer.old.given) }
    ensures err { OnErr result (buffer.new ≡ buffer.old) }
{
    let request = request_at(alloc, buffer.bytes(), spans, parts, size, buffer.given())?;
    buffer.pass(parts.len + size);
    Ok(request)
}

/// The request whose head and body stand there, where so many were given before it.
fn request_at(
    alloc: Global,
    bytes: &[u8],
    spans: &[HeaderSpan],
    parts: RequestSpans,
    size: usize,
    given: u64,
) -> Result<Request, NoMemory>
    requires { StandsWhole bytes.now spans.now parts size }
    ensures { IfOk result (λ request. (head : RequestHead) → IsHeadAt bytes.now spans.now parts head
        → request ≡ request_of given head (take size (drop parts.len bytes.now))) }
{
    let fields = &spans[..parts.headers];
    let (path, query) = parts_of_target(text_at(bytes, parts.path));
    Ok(Request {
        method: Text::of(alloc, text_at(bytes, parts.method))?,
        path: Text::of(alloc, path)?,
        query: Text::of(alloc, query)?,
        token: token(alloc, bytes, fields)?,
        close: closes(bytes, fields, parts.version, given),
        body: copy_of(alloc, &bytes[parts.len..parts.len + size])?,
    })
}

/// The text of the span.
fn text_at(bytes: &[u8], span: Span) -> &str
    requires within { IsWithin (length bytes.now) span }
    requires text { IsUtf8 (span_bytes bytes.now span) }
    ensures { result.now ≡ span_bytes bytes.now span }
{
    str::from_utf8(span.of(bytes)).unwrap()
}

/// What stands before the first question mark, and what stands behind it.
fn parts_of_target(target: &str) -> (&str, &str)
    ensures path { result.0.now ≡ target_path target.now }
    ensures query { result.1.now ≡ query_of target.now }
{
    match target.split_once('?') {
        Some((path, query)) => (path, query),
        None => (target, ""),
    }
}

/// The first token, unless it is no text.
fn token(alloc: Global, bytes: &[u8], fields: &[HeaderSpan]) -> Result<Option<Text>, NoMemory>
    requires { AreWithin bytes.now fields.now }
    ensures { IfOk result (λ token. token ≡ token_in bytes.now fields.now) }
{
    match first_value(bytes, fields, b"x-rundeck-auth-token") {
        Some(value) => text_if(alloc, value),
        None => Ok(None),
    }
}

/// The text of these bytes, unless they are no text.
fn text_if(alloc: Global, bytes: &[u8]) -> Result<Option<Text>, NoMemory>
    ensures { IfOk result (λ text. text ≡ text_if bytes.now) }
{
    match str::from_utf8(bytes) {
        Ok(text) => Ok(Some(Text::of(alloc, text)?)),
        Err(_) => Ok(None),
    }
}

/// Whether the reply is the last one to a head of these fields and this minor version, behind so
/// many requests.
fn closes(bytes: &[u8], fields: &[HeaderSpan], minor: u8, given: u64) -> bool
    requires { AreWithin bytes.now fields.now }
    ensures { result ≡ (closes_in bytes.now fields.now minor
        || nat_le most_requests (next_call given)) }
{
    says_close(bytes, fields, minor) || is_last(given)
}

fn says_close(bytes: &[u8], fields: &[HeaderSpan], minor: u8) -> bool
    requires { AreWithin bytes.now fields.now }
    ensures { result ≡ closes_in bytes.now fields.now minor }
{
    minor == 0 || has_value(bytes, fields, b"connection", b"close")
}

/// Whether the request behind so many is the last one.
fn is_last(given: u64) -> bool
    ensures { result ≡ nat_le most_requests (next_call given) }
{
    given.saturating_add(1) >= MOST_REQUESTS
}

fn copy_of(alloc: Global, bytes: &[u8]) -> Result<Items<u8>, NoMemory>
    ensures { IfOk result (λ copy. copy ≡ bytes.now) }
{
    let mut copy = Vec::with_capacity(alloc, bytes.len())?;
    copy.extend_from_slice(bytes)?;
    Ok(Items::of(copy))
}

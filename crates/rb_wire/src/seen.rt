ghost use Rattle.std.specs.Prelude.{◌≡◌, List, length};
ghost use Rattle.httparse.specs.Grammar.{HasNoRequest};
ghost use Rattle.httparse.specs.Spans.{IsRequestWithin, IsRequestOf};
ghost use Rattle.rb_wire.specs.Fields.{AreWithin, size_in, size_within};
ghost use Rattle.rb_wire.specs.Heads.{most_fields};
ghost use Rattle.rb_wire.specs.Seeing.{Sees, HasHeadWith};

use crate::fields::{has_field, one_length};
use crate::heard::WireFault;
use httparse::Status;
use httparse::spans::{HeaderSpan, RequestSpans, parse_request};

/// A head has at most so many bytes, with the empty lines before it.
pub(crate) const MOST_HEAD_BYTES: usize = 16_384;

/// A head has at most so many fields.
pub(crate) const MOST_FIELDS: usize = 64;

const MOST_BODY_BYTES: u64 = 1_048_576;

/// What the bytes that came lack of a request.
#[derive(Clone, Copy)]
pub(crate) enum Wanted {
    /// The head has not come: it ends at the end of a line.
    Line,
    /// The head and its body have so many bytes, and fewer came.
    Bytes(usize),
}

/// What the bytes that came begin with.
#[derive(Clone, Copy)]
pub(crate) enum Seen {
    /// A request: the parts of its head, and the size of its body.
    Whole(RequestSpans, usize),
    /// No request, whatever comes.
    Broken(WireFault),
    More(Wanted),
}

/// What the bytes begin with. The spans get the fields of a head.
pub(crate) fn see(bytes: &[u8], spans: &mut [HeaderSpan]) -> Seen
    requires { length spans.old ≡ most_fields }
    ensures { Sees bytes.now spans.new result }
{
    if bytes.is_empty() {
        return Seen::More(Wanted::Line);
    }
    match parse_request(bytes, spans) {
        Ok(Status::Complete(parts)) => see_body(bytes, spans, parts),
        Ok(Status::Partial) => see_part(bytes),
        Err(_) => Seen::Broken(WireFault::BadHead),
    }
}

/// What bytes begin with in which no head stands.
fn see_part(bytes: &[u8]) -> Seen
    requires { HasNoRequest bytes.now }
    ensures { (spans : List HeaderSpan) → Sees bytes.now spans result }
{
    if bytes.len() < MOST_HEAD_BYTES {
        Seen::More(Wanted::Line)
    } else {
        Seen::Broken(WireFault::BadHead)
    }
}

/// What bytes begin with in which a head of these parts stands.
fn see_body(bytes: &[u8], spans: &[HeaderSpan], parts: RequestSpans) -> Seen
    requires within { IsRequestWithin bytes.now spans.now parts }
    requires request { IsRequestOf bytes.now spans.now parts }
    requires fields { length spans.now ≡ most_fields }
    ensures { Sees bytes.now spans.now result }
{
    if parts.len > MOST_HEAD_BYTES {
        return Seen::Broken(WireFault::BadHead);
    }
    match size_of_body(bytes, &spans[..parts.headers]) {
        Ok(size) => see_size(bytes, spans, parts, size),
        Err(fault) => Seen::Broken(fault),
    }
}

/// What bytes begin with in which such a head with a body of this size begins.
fn see_size(bytes: &[u8], spans: &[HeaderSpan], parts: RequestSpans, size: usize) -> Seen
    requires { HasHeadWith bytes.now spans.now parts size }
    ensures { Sees bytes.now spans.now result }
{
    let total = parts.len + size;
    if bytes.len() < total {
        Seen::More(Wanted::Bytes(total))
    } else {
        Seen::Whole(parts, size)
    }
}

/// The size of the body that these fields tell.
fn size_of_body(bytes: &[u8], fields: &[HeaderSpan]) -> Result<usize, WireFault>
    requires { AreWithin bytes.now fields.now }
    ensures { result ≡ size_in bytes.now fields.now }
{
    if has_field(bytes, fields, b"transfer-encoding") {
        return Err(WireFault::TransferEncoding);
    }
    match one_length(bytes, fields, b"content-length") {
        Some(length) => size_within(length),
        None => Err(WireFault::BadLength),
    }
}

fn size_within(length: u64) -> Result<usize, WireFault>
    ensures { result ≡ size_within length }
{
    if length > MOST_BODY_BYTES {
        return Err(WireFault::TooLong);
    }
    Ok(length as usize)
}

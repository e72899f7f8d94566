ghost use Rattle.std.specs.List.{list_any};
ghost use Rattle.std.specs.Prelude.{◌≡◌, length, nat_lt, slice_get, option_map};
ghost use Rattle.std.specs.Str.{str_eq_ignore_ascii_case};
ghost use Rattle.httparse.specs.Spans.{IsHeaderWithin, span_bytes};
ghost use Rattle.rb_causes.specs.Numbers.{decimal_of};
ghost use Rattle.rb_wire.specs.Fields.{span_values, AreWithin, length_behind};
ghost use Rattle.rb_wire.specs.Lengths.{one_length};

use httparse::spans::HeaderSpan;
use rb_causes::decimal;
use std::str;

/// The first value of a field of this name.
pub(crate) fn first_value<'b>(
    bytes: &'b [u8],
    fields: &[HeaderSpan],
    name: &[u8],
) -> Option<&'b [u8]>
    requires { AreWithin bytes.now fields.now }
    ensures { option_map (λ value. value.now) result ≡
        slice_get (span_values name.now bytes.now fields.now) 0 }
{
    for field in fields {
        if is_named(bytes, field, name) {
            return Some(field.value.of(bytes));
        }
    }
    None
}

/// Whether there is a field of this name.
pub(crate) fn has_field(bytes: &[u8], fields: &[HeaderSpan], name: &[u8]) -> bool
    requires { AreWithin bytes.now fields.now }
    ensures { result ≡ nat_lt 0 (length (span_values name.now bytes.now fields.now)) }
{
    first_value(bytes, fields, name).is_some()
}

/// Whether a field of this name has this value, in any case.
pub(crate) fn has_value(bytes: &[u8], fields: &[HeaderSpan], name: &[u8], value: &[u8]) -> bool
    requires { AreWithin bytes.now fields.now }
    ensures { result ≡ list_any (λ other. str_eq_ignore_ascii_case other value.now)
        (span_values name.now bytes.now fields.now) }
{
    for field in fields {
        if is_named(bytes, field, name) && is_same(field.value.of(bytes), value) {
            return true;
        }
    }
    false
}

/// The one length that the fields of this name give.
pub(crate) fn one_length(bytes: &[u8], fields: &[HeaderSpan], name: &[u8]) -> Option<u64>
    requires { AreWithin bytes.now fields.now }
    ensures { result ≡ one_length (span_values name.now bytes.now fields.now) }
{
    let mut found: Option<u64> = None;
    for field in fields {
        if is_named(bytes, field, name) {
            found = Some(same_length(found, field.value.of(bytes))?);
        }
    }
    Some(found.unwrap_or(0))
}

fn is_named(bytes: &[u8], field: &HeaderSpan, name: &[u8]) -> bool
    requires { IsHeaderWithin (length bytes.now) field.now }
    ensures { result ≡ str_eq_ignore_ascii_case (span_bytes bytes.now field.now.name) name.now }
{
    is_same(field.name.of(bytes), name)
}

fn is_same(bytes: &[u8], other: &[u8]) -> bool
    ensures { result ≡ str_eq_ignore_ascii_case bytes.now other.now }
{
    bytes.eq_ignore_ascii_case(other)
}

/// The length that a value gives, unless another one was found before.
fn same_length(found: Option<u64>, value: &[u8]) -> Option<u64>
    ensures { result ≡ length_behind found value.now }
{
    let length = length_in(value)?;
    match found {
        None => Some(length),
        Some(other) => if other == length { Some(length) } else { None },
    }
}

/// The number that a value gives.
fn length_in(value: &[u8]) -> Option<u64>
    ensures { result ≡ decimal_of value.now }
{
    match str::from_utf8(value) {
        Ok(text) => decimal(text),
        Err(_) => None,
    }
}

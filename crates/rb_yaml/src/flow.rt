//! Flow sequences and maps on one line, from behind the opening sign on.
ghost use Rattle.rb_yaml.specs.Faults.{Reads};
ghost use Rattle.rb_yaml.specs.Flow.{flow_item, flow_items, flow_pair, flow_turn, flow_value, is_key_colon};
ghost use Rattle.rb_yaml.specs.FlowView.{item_view, read_view, turn_view};
ghost use Rattle.std.specs.Prelude.{◌≡◌, ◌<◌, ◌+◌, ◌&&◌, false, length};

use crate::flaw::{Excluded, Flaw, Stop};
use crate::flow_scalars::{flow_scalar, split_word};
use crate::signs::{begins, begins_sign, behind_first, is_clear, past_blanks};
use rb_causes::Text;
use std::alloc::Global;

/// An item of a flow: a scalar, or a key with its scalar. A scalar alone has the empty key.
#[derive(Drop)]
pub(crate) struct FlowItem<'a> {
    pub key: Text,
    pub text: Text,
    pub good: bool,
    pub rest: &'a str,
}

/// A key of a flow with its scalar.
#[derive(Drop)]
pub(crate) struct FlowPair {
    pub key: Text,
    pub text: Text,
}

/// What a flow has read: its items, whether all of it has a form, and what follows its closing
/// sign.
#[derive(Drop)]
pub(crate) struct FlowRead<'a> {
    pub items: Vec<FlowPair>,
    pub good: bool,
    pub rest: &'a str,
}

/// The value behind a key and its colon.
fn flow_value<'a>(
    alloc: Global,
    close: u8,
    key: Text,
    good: bool,
    text: &'a str,
) -> Result<FlowItem<'a>, Stop<Flaw>>
    requires { close < 128 }
    ensures { Reads item_view result (flow_value close key good text.now) }
{
    if is_clear(text) {
        return Err(Stop::At(Flaw::OutOfProfile(Excluded::MultiLineFlow)));
    }
    let rest = past_blanks(text);
    if begins(b',', rest) || begins(close, rest) {
        return Ok(FlowItem {
            key,
            text: Text::of(alloc, "")?,
            good: false,
            rest,
        });
    }
    let value = flow_scalar(alloc, false, close, rest)?;
    Ok(FlowItem {
        key,
        text: value.text,
        good: good && value.good,
        rest: value.rest,
    })
}

/// Whether the colon of a key begins this text. Behind a quoted key it needs no blank behind it.
fn is_key_colon(key: &str, text: &str) -> bool
    ensures { result ≡ is_key_colon key.now text.now }
{
    begins_sign(b':', text.as_bytes())
        || begins(b':', text) && (begins(b'"', key) || begins(b'\'', key))
}

/// A key and its value.
fn flow_pair<'a>(alloc: Global, close: u8, text: &'a str) -> Result<FlowItem<'a>, Stop<Flaw>>
    requires { close < 128 }
    ensures { Reads item_view result (flow_pair close text.now) }
{
    let key = flow_scalar(alloc, true, close, text)?;
    let colon = past_blanks(key.rest);
    if is_key_colon(text, colon) {
        return flow_value(alloc, close, key.text, key.good, behind_first(colon));
    }
    Ok(FlowItem {
        key: key.text,
        text: Text::of(alloc, "")?,
        good: false,
        rest: key.rest,
    })
}

fn flow_item<'a>(alloc: Global, close: u8, text: &'a str) -> Result<FlowItem<'a>, Stop<Flaw>>
    requires { close < 128 }
    ensures { Reads item_view result (flow_item close text.now) }
{
    if close == b'}' {
        return flow_pair(alloc, close, text);
    }
    let value = flow_scalar(alloc, false, close, text)?;
    Ok(FlowItem {
        key: Text::of(alloc, "")?,
        text: value.text,
        good: value.good,
        rest: value.rest,
    })
}

/// What stands at a place of a flow, with what follows it.
#[derive(Drop)]
pub(crate) enum FlowTurn<'a> {
    /// The closing sign.
    Closes(&'a str),
    /// A comma.
    Separates(&'a str),
    /// What may not stand behind an item.
    Junk(&'a str),
    Item(FlowItem<'a>),
}

/// What stands there, behind an item or not.
fn flow_turn<'a>(
    alloc: Global,
    close: u8,
    after: bool,
    text: &'a str,
) -> Result<FlowTurn<'a>, Stop<Flaw>>
    requires { close < 128 }
    ensures { Reads turn_view result (flow_turn close after text.now) }
{
    if is_clear(text) {
        return Err(Stop::At(Flaw::OutOfProfile(Excluded::MultiLineFlow)));
    }
    let next = past_blanks(text);
    if begins(close, next) {
        return Ok(FlowTurn::Closes(behind_first(next)));
    }
    if begins(b',', next) {
        return Ok(FlowTurn::Separates(behind_first(next)));
    }
    if after {
        let (_word, rest) = split_word(false, close, next);
        return Ok(FlowTurn::Junk(rest));
    }
    let item = flow_item(alloc, close, next)?;
    Ok(FlowTurn::Item(item))
}

fn both(left: bool, right: bool) -> bool
    ensures { result ≡ (left && right) }
{
    left && right
}

/// The items up to the closing sign. Each turn takes a byte at least.
pub(crate) fn flow_items<'a>(
    alloc: Global,
    close: u8,
    text: &'a str,
) -> Result<FlowRead<'a>, Stop<Flaw>>
    requires { close < 128 }
    ensures { Reads read_view result (flow_items (length text.now + 2) close false text.now) }
{
    let mut items = Vec::new(alloc);
    let mut good = true;
    let mut after = false;
    let mut rest = text;
    for _turn in 0..text.len() + 2 {
        match flow_turn(alloc, close, after, rest)? {
            FlowTurn::Closes(rest) => return Ok(FlowRead { items, good, rest }),
            FlowTurn::Separates(behind) => {
                good = both(good, after);
                after = false;
                rest = behind;
            }
            FlowTurn::Junk(behind) => {
                good = false;
                after = true;
                rest = behind;
            }
            FlowTurn::Item(item) => {
                good = both(good, item.good);
                after = true;
                rest = item.rest;
                items.push(FlowPair {
                    key: item.key,
                    text: item.text,
                })?;
            }
        }
    }
    Err(Stop::At(Flaw::Form))
}

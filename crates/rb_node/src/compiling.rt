ghost use Rattle.rb_causes.specs.Texts.{pieces};
ghost use Rattle.rb_node.specs.Drafts.{spelled};
ghost use Rattle.rb_node.specs.Values.{part_value, alternative_values, is_slashed, alternatives_of, clause_of, draft_values, in_order, drafted_values, is_filled, are_filled, IsRead, AreRead, IsValueFault, IsFirstFaultOf, told_as};
ghost use Rattle.rb_text.specs.Values.{value_of};
ghost use Rattle.rb_text.specs.declared.value.Value.TheVariants as variants;
ghost use Rattle.std.specs.Prelude.{◌≡◌, Err, IfOk, OnOk, IfErr, map, nat_eq, true, [], ◌∷◌, ◌++◌, if◌then◌else◌};

use crate::clause::FilterClause;
use crate::drafting::Draft;
use crate::filter_err::FilterErr;
use rb_causes::{Items, NoMemory, Text};
use rb_text::{Pattern, PatternErr, Value};
use std::alloc::Global;
use std::mem;

/// The clauses with their values, up to the first faulty value.
pub fn compile_all(alloc: Global, drafts: &[Draft]) -> Result<Items<FilterClause>, FilterErr>
    ensures ok { IfOk result (λ cs. cs ≡ map clause_of drafts.now) }
    ensures filled { OnOk result (are_filled (drafted_values drafts.now) ≡ true) }
    ensures read { OnOk result (AreRead (drafted_values drafts.now)) }
    ensures fault { IfErr result (IsFirstFaultOf (drafted_values drafts.now)) }
{
    let mut clauses = Items::new(alloc);
    for draft in drafts {
        clauses.push(clause(alloc, draft)?)?;
    }
    Ok(clauses)
}

fn clause(alloc: Global, draft: &Draft) -> Result<FilterClause, FilterErr>
    ensures ok { IfOk result (λ c. c ≡ clause_of draft.now) }
    ensures filled { OnOk result (are_filled (draft_values draft.now) ≡ true) }
    ensures read { OnOk result (AreRead (draft_values draft.now)) }
    ensures fault { IfErr result (IsFirstFaultOf (draft_values draft.now)) }
{
    let alternatives = alternatives(alloc, draft.attr.as_str(), draft.value.as_slice())?;
    Ok(FilterClause {
        exclude: draft.exclude,
        attr: draft.attr.copy(alloc)?,
        alternatives,
    })
}

/// The alternatives of a value: the pattern between slashes, or else the texts between commas.
fn alternatives(alloc: Global, attr: &str, value: &[char]) -> Result<Items<Items<Value>>, FilterErr>
    ensures ok { IfOk result (λ vs. vs ≡ alternatives_of attr.now value.now) }
    ensures filled { OnOk result
        (are_filled (in_order (alternatives_of attr.now value.now)) ≡ true) }
    ensures read { OnOk result (AreRead (in_order (alternatives_of attr.now value.now))) }
    ensures fault { IfErr result (IsFirstFaultOf (in_order (alternatives_of attr.now value.now))) }
{
    if is_slashed(value) {
        return one_pattern(alloc, &value[1..value.len() - 1]);
    }
    let texts = pieces(alloc, ',', value)?;
    listed(alloc, attr, texts.as_slice())
}

fn is_slashed(value: &[char]) -> bool
    ensures { result ≡ is_slashed value.now }
{
    value.len() >= 2 && value[0] == '/' && value[value.len() - 1] == '/'
}

/// The one alternative that is this pattern.
fn one_pattern(alloc: Global, chars: &[char]) -> Result<Items<Items<Value>>, FilterErr>
    ensures ok { IfOk result (λ vs. vs ≡ (variants.Pattern (spelled chars.now) ∷ []) ∷ []) }
    ensures read { OnOk result (IsRead (variants.Pattern (spelled chars.now))) }
    ensures fault { IfErr result (IsValueFault (variants.Pattern (spelled chars.now))) }
{
    let pattern = pattern(alloc, text_of(alloc, chars)?.as_str())?;
    let part = one(alloc, Value::Pattern(pattern))?;
    Ok(one(alloc, part)?)
}

fn pattern(alloc: Global, text: &str) -> Result<Pattern, FilterErr>
    ensures ok { IfOk result (λ p. p ≡ text.now) }
    ensures read { OnOk result (IsRead (variants.Pattern text.now)) }
    ensures fault { IfErr result (IsValueFault (variants.Pattern text.now)) }
{
    match Pattern::build(alloc, text) {
        Ok(pattern) => Ok(pattern),
        Err(error) => Err(told_as(error)),
    }
}

/// Each alternative with its parts.
fn listed(
    alloc: Global,
    attr: &str,
    texts: &[Items<char>],
) -> Result<Items<Items<Value>>, FilterErr>
    ensures ok { IfOk result (λ vs. vs ≡ map (alternative_values attr.now) texts.now) }
    ensures filled { OnOk result
        (are_filled (in_order (map (alternative_values attr.now) texts.now)) ≡ true) }
    ensures read { OnOk result (AreRead (in_order (map (alternative_values attr.now) texts.now))) }
    ensures fault { IfErr result
        (IsFirstFaultOf (in_order (map (alternative_values attr.now) texts.now))) }
{
    let mut all = Items::new(alloc);
    for text in texts {
        all.push(alternative(alloc, attr, text.as_slice())?)?;
    }
    Ok(all)
}

/// The parts of an alternative: for `tags` the texts between plus signs.
fn alternative(alloc: Global, attr: &str, text: &[char]) -> Result<Items<Value>, FilterErr>
    ensures ok { IfOk result (λ vs. vs ≡ alternative_values attr.now text.now) }
    ensures filled { OnOk result (are_filled (alternative_values attr.now text.now) ≡ true) }
    ensures read { OnOk result (AreRead (alternative_values attr.now text.now)) }
    ensures fault { IfErr result (IsFirstFaultOf (alternative_values attr.now text.now)) }
{
    if attr == "tags" {
        let texts = pieces(alloc, '+', text)?;
        return parts(alloc, texts.as_slice());
    }
    let value = part(alloc, text)?;
    Ok(one(alloc, value)?)
}

fn parts(alloc: Global, texts: &[Items<char>]) -> Result<Items<Value>, FilterErr>
    ensures ok { IfOk result (λ vs. vs ≡ map part_value texts.now) }
    ensures filled { OnOk result (are_filled (map part_value texts.now) ≡ true) }
    ensures read { OnOk result (AreRead (map part_value texts.now)) }
    ensures fault { IfErr result (IsFirstFaultOf (map part_value texts.now)) }
{
    let mut values = Items::new(alloc);
    for text in texts {
        values.push(part(alloc, text.as_slice())?)?;
    }
    Ok(values)
}

fn part(alloc: Global, chars: &[char]) -> Result<Value, FilterErr>
    ensures ok { IfOk result (λ v. v ≡ part_value chars.now) }
    ensures filled { OnOk result (is_filled (part_value chars.now) ≡ true) }
    ensures read { OnOk result (IsRead (part_value chars.now)) }
    ensures fault { IfErr result (IsValueFault (part_value chars.now)) }
{
    let text = text_of(alloc, chars)?;
    value(alloc, text.as_str())
}

fn value(alloc: Global, text: &str) -> Result<Value, FilterErr>
    ensures ok { IfOk result (λ v. v ≡ value_of text.now) }
    ensures filled { OnOk result (is_filled (value_of text.now) ≡ true) }
    ensures read { OnOk result (IsRead (value_of text.now)) }
    ensures fault { IfErr result (IsValueFault (value_of text.now)) }
    ensures empty { text.now ≡ [] → result ≡ Err FilterErr.EmptyValue }
{
    if text.is_empty() {
        return Err(FilterErr::EmptyValue);
    }
    match Value::read(alloc, text) {
        Ok(value) => Ok(value),
        Err(error) => Err(told_as(error)),
    }
}

fn told_as(error: PatternErr) -> FilterErr
    ensures { result ≡ told_as error }
{
    match error {
        PatternErr::NoMemory => FilterErr::NoMemory,
        PatternErr::BadPattern => FilterErr::BadPattern(error),
        PatternErr::TooLong => FilterErr::BadPattern(error),
        PatternErr::TooBig => FilterErr::BadPattern(error),
    }
}

/// A list of one item.
fn one<T: Drop>(alloc: Global, item: T) -> Result<Items<T>, NoMemory>
    ensures { IfOk result (λ items. items ≡ item ∷ []) }
{
    let mut items = Items::new(alloc);
    items.push(item)?;
    Ok(items)
}

/// The texts between signs so far, and the one at hand.
#[derive(Drop)]
struct Cutter {
    done: Vec<Items<char>>,
    piece: Items<char>,
}

impl Cutter {
    /// Puts a character to the text at hand, or ends it at the sign.
    fn take(&mut self, alloc: Global, sign: char, c: char) -> Result<(), NoMemory>
        ensures done { OnOk result (self.new.done.items ≡ (if nat_eq c sign
            then self.old.done.items ++ self.old.piece ∷ [] else self.old.done.items)) }
        ensures piece { OnOk result (self.new.piece
            ≡ (if nat_eq c sign then [] else self.old.piece ++ c ∷ [])) }
    {
        if c == sign {
            return self.close(alloc);
        }
        self.piece.push(c)
    }

    /// Puts the text at hand to the others.
    fn close(&mut self, alloc: Global) -> Result<(), NoMemory>
        ensures done { OnOk result
            (self.new.done.items ≡ self.old.done.items ++ self.old.piece ∷ []) }
        ensures piece { OnOk result (self.new.piece ≡ []) }
    {
        let piece = mem::replace(&mut self.piece, Items::new(alloc));
        self.done.push(piece)?;
        Ok(())
    }
}

/// The texts between these signs.
fn pieces(alloc: Global, sign: char, chars: &[char]) -> Result<Vec<Items<char>>, NoMemory>
    ensures { IfOk result (λ ps. ps.items ≡ pieces (λ c. nat_eq c sign) chars.now) }
{
    let mut cutter = Cutter {
        done: Vec::new(alloc),
        piece: Items::new(alloc),
    };
    for c in chars {
        cutter.take(alloc, sign, *c)?;
    }
    let Cutter { mut done, piece } = cutter;
    done.push(piece)?;
    Ok(done)
}

/// The text of these characters.
fn text_of(alloc: Global, chars: &[char]) -> Result<Text, NoMemory>
    ensures { IfOk result (λ text. text ≡ spelled chars.now) }
{
    let mut text = String::new(alloc);
    for c in chars {
        text.push(*c)?;
    }
    Ok(Text::from_string(text))
}

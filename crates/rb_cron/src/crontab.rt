ghost use Rattle.rb_causes.specs.Texts.{pieces, is_trimmed_off};
ghost use Rattle.rb_cron.specs.Crontab.{fields_of, fields_in, with_year, words_at_blanks, kept_word, parts_of_each, IsNoCrontab};
ghost use Rattle.std.specs.Prelude.{◌≡◌, ◌<◌, ◌∷◌, ◌++◌, [], OnOk, Some, IfOk, IfErr, map};

use crate::fields::Fields;
use crate::parting::parts;
use crate::schedule_err::ScheduleErr;
use rb_causes::{NoMemory, Text};
use std::alloc::Global;

/// The field texts of a crontab: its longest runs of bytes that are no blanks, six or seven. Where
/// the year is not there, it is `*`.
pub(crate) fn read_fields(alloc: Global, text: &str) -> Result<Fields, ScheduleErr>
    ensures fields { IfOk result (λ fields. fields_of text.now ≡ Some fields) }
    ensures fault { IfErr result (IsNoCrontab (fields_of text.now)) }
{
    fields_of_words(alloc, words(alloc, text)?.as_slice())
}

fn fields_of_words(alloc: Global, words: &[&str]) -> Result<Fields, ScheduleErr>
    ensures fields { IfOk result (λ fields.
        fields_in (with_year (map (λ w. w.now) words.now)) ≡ Some fields) }
    ensures fault { IfErr result
        (IsNoCrontab (fields_in (with_year (map (λ w. w.now) words.now)))) }
{
    match words {
        [s, m, h, d, mo, w] => Ok(fields_in(alloc, s, m, h, d, mo, w, "*")?),
        [s, m, h, d, mo, w, y] => Ok(fields_in(alloc, s, m, h, d, mo, w, y)?),
        _ => Err(ScheduleErr::BadField { n: 0 }),
    }
}

fn fields_in(
    alloc: Global,
    s: &str,
    m: &str,
    h: &str,
    d: &str,
    mo: &str,
    w: &str,
    y: &str,
) -> Result<Fields, NoMemory>
    ensures { IfOk result (λ fields.
        fields_in (s.now ∷ m.now ∷ h.now ∷ d.now ∷ mo.now ∷ w.now ∷ y.now ∷ [])
        ≡ Some fields) }
{
    Ok(Fields {
        seconds: Text::of(alloc, s)?,
        minute: Text::of(alloc, m)?,
        hour: Text::of(alloc, h)?,
        day: Text::of(alloc, d)?,
        month: Text::of(alloc, mo)?,
        weekday: Text::of(alloc, w)?,
        year: Text::of(alloc, y)?,
    })
}

/// The words of a text at its blanks: space, tab, CR and LF.
fn words<'a>(alloc: Global, text: &'a str) -> Result<Vec<&'a str>, NoMemory>
    ensures { IfOk result (λ words. map (λ w. w.now) words.items ≡ words_at_blanks text.now) }
{
    let mut words = Vec::new(alloc);
    for part in parts_at_blanks(alloc, text)?.iter() {
        keep_word(&mut words, *part)?;
    }
    Ok(words)
}

/// Puts a text to the words, unless it is empty.
fn keep_word<'a>(words: &mut Vec<&'a str>, text: &'a str) -> Result<(), NoMemory>
    ensures { OnOk result (map (λ w. w.now) words.new.items
        ≡ map (λ w. w.now) words.old.items ++ kept_word text.now) }
{
    if !text.is_empty() {
        words.push(text)?;
    }
    Ok(())
}

/// The parts of a text between its blanks.
fn parts_at_blanks<'a>(alloc: Global, text: &'a str) -> Result<Vec<&'a str>, NoMemory>
    ensures { IfOk result (λ ps. map (λ p. p.now) ps.items ≡ pieces is_trimmed_off text.now) }
{
    let at_spaces = parts(alloc, ' ', text)?;
    let at_tabs = parts_of_each(alloc, '\t', at_spaces.as_slice())?;
    let at_returns = parts_of_each(alloc, '\r', at_tabs.as_slice())?;
    parts_of_each(alloc, '\n', at_returns.as_slice())
}

/// The parts of each text between an ASCII sign, one behind the other.
fn parts_of_each<'a>(alloc: Global, sign: char, texts: &[&'a str]) -> Result<Vec<&'a str>, NoMemory>
    requires { sign < 128 }
    ensures { IfOk result (λ all.
        map (λ p. p.now) all.items ≡ parts_of_each sign (map (λ t. t.now) texts.now)) }
{
    let mut all = Vec::new(alloc);
    for text in texts {
        for part in parts(alloc, sign, text)?.iter() {
            all.push(*part)?;
        }
    }
    Ok(all)
}

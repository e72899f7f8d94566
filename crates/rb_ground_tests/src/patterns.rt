//! Patterns and values, and why a text is none.
use rb_causes::{NoMemory, Text};
use rb_text::{Pattern, PatternErr, Room, Value};
use std::alloc::{AllocError, Global};
use std::test::Fail;

/// Values, texts, and whether the one holds of the other.
const HELD: [(&str, &str, bool); 10] = [
    ("web.1", "web.1", true),
    ("web.1", "webx1", false),
    ("web[.]1|db", "web.1", true),
    ("web[.]1|db", "webx1", false),
    ("web[.]1|db", "db1", false),
    ("web.*", "a web", false),
    ("([0-9]{1,3}\\.){3}[0-9]{1,3}", "10.0.0.1", true),
    ("([0-9]{1,3}\\.){3}[0-9]{1,3}", "10.0.0.1x", false),
    ("", "", true),
    ("", "a", false),
];

/// Texts, each the second part so many times behind the first, and why they are no pattern.
const PATTERNS: [(&str, &str, u32, Option<PatternErr>); 14] = [
    ("", "[", 1, Some(PatternErr::BadPattern)),
    // Not read by itself, though it is in the whole form.
    ("", "a)|(?:b", 1, Some(PatternErr::BadPattern)),
    ("", "(?<=a)b", 1, Some(PatternErr::BadPattern)),
    // Read by itself, and not in the whole form, whose end the comment hides.
    ("", "(?x)a #", 1, Some(PatternErr::BadPattern)),
    // Read, and grown too big.
    ("", "\\w{1000}", 1, Some(PatternErr::TooBig)),
    ("", "(\\w{30}){30}", 1, Some(PatternErr::TooBig)),
    // Not light, and taken all the same.
    ("", "(a{2}){3}", 1, None),
    // Light, and taken for too big all the same: `regex` passes over blanks in the number.
    ("", "(?x)\\w{9 9 9 9}", 1, Some(PatternErr::NoMemory)),
    ("", "a", 256, None),
    ("", "a", 257, Some(PatternErr::TooLong)),
    ("", "[", 257, Some(PatternErr::TooLong)),
    ("a", "*", 248, None),
    ("a", "*", 249, Some(PatternErr::BadPattern)),
    ("\\w{100}", "\\w", 120, None),
];

/// This text, n times over behind another.
fn repeated(alloc: Global, front: &str, text: &str, n: u32) -> Result<String, AllocError> {
    let mut all = String::from_str(alloc, front)?;
    for _ in 0..n {
        all.push_str(text)?;
    }
    Ok(all)
}

/// Whether the value that is read has the text that was read, and holds of this one or not, by
/// itself and among others.
fn holds(alloc: Global, value: &str, text: &str, wanted: bool) -> Result<bool, Fail> {
    let read = Value::read(alloc, value)?;
    let mut texts = Vec::new(alloc);
    texts.push(Text::of(alloc, "no such text")?)?;
    texts.push(Text::of(alloc, text)?)?;
    let any = read.holds_of_any(alloc, texts.as_slice())?;
    let one = read.holds_of(alloc, text)?;
    Ok(read.is(alloc, text)? == wanted && one == wanted && any == wanted && read.text() == value)
}

#[test]
fn a_value_is_its_text_or_what_its_pattern_matches_whole(rt: HostRuntime) -> Result<(), Fail> {
    for (value, text, wanted) in &HELD {
        assert!(rt;
            holds(rt.alloc(), *value, *text, *wanted)?,
            "{value} {text}"
        );
    }
    Ok(())
}

#[test]
fn each_refusal_tells_its_fault(rt: HostRuntime) -> Result<(), Fail> {
    for (front, part, times, wanted) in &PATTERNS {
        let text = repeated(rt.alloc(), *front, *part, *times)?;
        let refused = Pattern::build(rt.alloc(), text.as_str()).err();
        assert_eq!(rt; refused, *wanted, "{text}");
    }
    Ok(())
}

/// Patterns, and what each tells of the first of the texts, of any and of all.
const TOLD: [(&str, (bool, bool, bool)); 5] = [
    ("web[0-9]", (true, true, false)),
    ("d.*", (false, true, false)),
    (".*", (true, true, true)),
    ("web", (false, false, false)),
    ("\\w{1,40}", (true, true, true)),
];

/// Values, and of which of the lists each holds: of all texts, of those behind the first, and of
/// the last alone.
const EACH: [(&str, (bool, bool, bool)); 4] = [
    ("db1", (true, true, false)),
    ("web.*", (true, false, false)),
    (".*", (true, true, true)),
    // No sign of a pattern but the dot, so a plain text.
    ("web.", (false, false, false)),
];

fn three_texts(alloc: Global) -> Result<Vec<Text>, NoMemory> {
    let mut texts = Vec::new(alloc);
    for text in &["web1", "db1", "x"] {
        texts.push(Text::of(alloc, *text)?)?;
    }
    Ok(texts)
}

/// What a pattern tells of the first text, of any and of all.
fn told(
    alloc: Global,
    pattern: &Pattern,
    texts: &[Text],
) -> Result<(bool, bool, bool), PatternErr> {
    let first = match texts.first() {
        None => false,
        Some(text) => pattern.whole(alloc, text.as_str())?,
    };
    let any = pattern.whole_of_any(alloc, texts)?;
    let all = pattern.whole_of_all(alloc, texts)?;
    Ok((first, any, all))
}

/// Whether a pattern tells this in each room.
fn tells(
    alloc: Global,
    pattern: &mut Pattern,
    texts: &[Text],
    wanted: (bool, bool, bool),
) -> Result<bool, PatternErr> {
    let kept = told(alloc, &*pattern, texts)? == wanted;
    pattern.fit_in(&mut Room::beside_document());
    let beside = told(alloc, &*pattern, texts)? == wanted;
    pattern.fit_in(&mut Room::none());
    let none = told(alloc, &*pattern, texts)? == wanted;
    Ok(kept && beside && none)
}

/// Whether the pattern of this text tells this, kept or not.
fn tells_in_each_room(
    alloc: Global,
    text: &str,
    texts: &[Text],
    wanted: (bool, bool, bool),
) -> Result<bool, PatternErr> {
    let mut bare = Pattern::build(alloc, text)?;
    let same = tells(alloc, &mut bare, texts, wanted)? && bare.text() == text;
    drop(bare);
    let mut pattern = Pattern::build_in(alloc, text, &mut Room::of_document())?;
    Ok(same && tells(alloc, &mut pattern, texts, wanted)?)
}

#[test]
fn a_pattern_that_is_not_kept_matches_as_one_that_is(rt: HostRuntime) -> Result<(), Fail> {
    let alloc = rt.alloc();
    let texts = three_texts(alloc)?;
    for (text, wanted) in &TOLD {
        assert!(rt;
            tells_in_each_room(alloc, *text, texts.as_slice(), *wanted)?,
            "{text}"
        );
    }
    Ok(())
}

/// The texts behind so many, where there are so many.
fn behind(texts: &[Text], count: usize) -> &[Text] {
    if count <= texts.len() {
        &texts[count..]
    } else {
        texts
    }
}

#[test]
fn each_of_many_lists_is_told_by_itself(rt: HostRuntime) -> Result<(), Fail> {
    let alloc = rt.alloc();
    let texts = three_texts(alloc)?;
    let mut lists = Vec::new(alloc);
    for first in 0..3 {
        lists.push(behind(texts.as_slice(), first))?;
    }
    for (value, wanted) in &EACH {
        let marks = Value::read(alloc, *value)?.holds_of_each(alloc, lists.as_slice())?;
        assert_eq!(rt; marks.len(), 3, "{value}");
        assert_eq!(rt; (marks[0], marks[1], marks[2]), *wanted, "{value}");
    }
    Ok(())
}

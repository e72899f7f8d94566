//! The words and the items of a text.
use rb_causes::{Text, comma_items, decimal, words};
use std::alloc::{AllocError, Global};
use std::test::Fail;

/// Texts, with their words and their items.
const TEXTS: [(&str, &str, &str); 5] = [
    ("", "", ""),
    ("a \"b c\" ''", "[a][b c][]", "[a \"b c\" '']"),
    (
        "a'b c'\"d\\\"\", ,e",
        "[ab cd\",][,e]",
        "[a'b c'\"d\\\"\"][e]",
    ),
    ("'a", "open quote", "['a]"),
    (" a\tb,\u{e9} ,,\r\n", "[a][b,\u{e9}][,,]", "[a\tb][\u{e9}]"),
];

/// The texts, each between brackets.
fn bracketed(alloc: Global, texts: &[Text]) -> Result<String, AllocError> {
    let mut all = String::new(alloc);
    for text in texts {
        all.push('[')?;
        all.push_str(text.as_str())?;
        all.push(']')?;
    }
    Ok(all)
}

fn words_shown(alloc: Global, text: &str) -> Result<String, AllocError> {
    match words(alloc, text) {
        Ok(words) => bracketed(alloc, words.as_slice()),
        Err(_) => String::from_str(alloc, "open quote"),
    }
}

fn items_shown(alloc: Global, text: &str) -> Result<String, AllocError> {
    match comma_items(alloc, text) {
        Ok(items) => bracketed(alloc, items.as_slice()),
        Err(_) => String::from_str(alloc, "no memory"),
    }
}

#[test]
fn texts_are_parted_into_words_and_items(rt: HostRuntime) -> Result<(), Fail> {
    for (text, words, items) in &TEXTS {
        assert_eq!(rt; words_shown(rt.alloc(), *text)?.as_str(), *words, "{text}");
        assert_eq!(rt; items_shown(rt.alloc(), *text)?.as_str(), *items, "{text}");
    }
    assert_eq!(rt; decimal("86400"), Some(86_400));
    assert_eq!(rt; decimal("1000000000000000000"), None);
    Ok(())
}

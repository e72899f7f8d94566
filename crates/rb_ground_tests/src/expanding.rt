//! Words and a script in which names stand for values.
use rb_causes::{NoMemory, Prop, Text};
use rb_expand::{script_of, words_of};
use std::alloc::Global;
use std::test::Fail;

const NAMES: [(&str, &str); 6] = [
    ("option.x", "1 2"),
    ("option.y", "${option.x}"),
    ("option.mode", "soft"),
    ("node.a.b-c", "@option.x@"),
    ("job.n", "\u{e9}"),
    ("other", "never"),
];

const WORDS: [(&str, &str); 9] = [
    ("a${option.x}b", "a1 2b"),
    ("${option.y}", "${option.x}"),
    ("${node.no}", ""),
    ("${other}", "${other}"),
    ("${option.x", "${option.x"),
    ("${${option.x}}", "${1 2}"),
    ("${node.a.b-c}", "@option.x@"),
    ("\u{20ac}${job.n}\u{20ac}", "\u{20ac}\u{e9}\u{20ac}"),
    ("@option.x@", "@option.x@"),
];

const SCRIPTS: [(&str, &str); 4] = [
    ("echo @option.mode@", "echo soft"),
    ("@x@option.x@", "@x1 2"),
    ("@@option.x@@", "@1 2@"),
    (
        "${option.x} $HOME @node.a.b-c@",
        "${option.x} $HOME @option.x@",
    ),
];

fn names(alloc: Global) -> Result<Vec<Prop>, NoMemory> {
    let mut names = Vec::new(alloc);
    for (key, text) in &NAMES {
        let key = Text::of(alloc, *key)?;
        let text = Text::of(alloc, *text)?;
        names.push(Prop { key, text })?;
    }
    Ok(names)
}

/// Whether the one word becomes this one.
fn is_word(alloc: Global, names: &[Prop], word: &str, wanted: &str) -> Result<bool, NoMemory> {
    let mut template = Vec::new(alloc);
    template.push(Text::of(alloc, word)?)?;
    let words = words_of(alloc, template.as_slice(), names)?;
    match words.as_slice() {
        [only] => Ok(only.as_str() == wanted),
        _ => Ok(false),
    }
}

#[test]
fn names_are_replaced_once(rt: HostRuntime) -> Result<(), Fail> {
    let names = names(rt.alloc())?;
    for (word, wanted) in &WORDS {
        assert!(rt;
            is_word(rt.alloc(), names.as_slice(), *word, *wanted)?,
            "{word}"
        );
    }
    for (script, wanted) in &SCRIPTS {
        let text = script_of(rt.alloc(), *script, names.as_slice())?;
        assert_eq!(rt; text.as_str(), *wanted, "{script}");
    }
    Ok(())
}

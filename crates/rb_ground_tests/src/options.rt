//! Settled values of options, and arguments.
use rb_causes::{Items, NoMemory, Prop, Text};
use rb_option::{ArgsErr, OptionDef, OptionErr, OptionKind, read_args, settle};
use rb_text::Pattern;
use std::alloc::{AllocError, Global};
use std::test::Fail;

/// Given values, as pairs with `|` between them, and what they come to.
const GIVEN: [(&str, &str); 9] = [
    ("mode=soft", "mode=soft;number=7;"),
    ("number=|mode=hard", "mode=hard;number=;"),
    ("several=b,a|mode=hard", "mode=hard;number=7;several=b,a;"),
    ("several=a,,b|mode=hard", "several: not allowed"),
    ("mode=", "mode: missing"),
    ("mode=Soft", "mode: not allowed"),
    ("number=x1|mode=hard", "number: no match"),
    ("mode=soft|mode=hard", "mode: twice"),
    ("mode=soft|colour=red|mode=hard", "colour: unknown"),
];

const ARGUMENTS: [(&str, &str); 6] = [
    ("-a 'b c' --d ''", "a=b c;-d=;"),
    ("-a -b", "a=-b;"),
    ("-a 'b", "open quote"),
    ("-a b -c", "no value: c"),
    ("-a b c d", "not an option"),
    ("- b", "not an option"),
];

fn texts(alloc: Global, all: &[&str]) -> Result<Items<Text>, NoMemory> {
    let mut items = Items::new(alloc);
    for text in all {
        items.push(Text::of(alloc, *text)?)?;
    }
    Ok(items)
}

/// An option without a default that takes these values alone, or any where there are none.
fn option(alloc: Global, name: &str, values: &[&str]) -> Result<OptionDef, NoMemory> {
    Ok(OptionDef {
        name: Text::of(alloc, name)?,
        default: None,
        values: texts(alloc, values)?,
        enforced: !values.is_empty(),
        required: false,
        pattern: None,
        multivalued: false,
        delimiter: Text::of(alloc, ",")?,
    })
}

/// One that is required, one with a default and a pattern, and one of several values.
fn options(alloc: Global) -> Result<Vec<OptionDef>, Fail> {
    let mode = OptionDef {
        required: true,
        ..option(alloc, "mode", &["soft", "hard"])?
    };
    let number = OptionDef {
        default: Some(Text::of(alloc, "7")?),
        pattern: Some(Pattern::build(alloc, "[0-9]+")?),
        ..option(alloc, "number", &[])?
    };
    let several = OptionDef {
        multivalued: true,
        ..option(alloc, "several", &["a", "b"])?
    };
    Ok(vec![in alloc; mode, number, several]?)
}

fn pairs_of(alloc: Global, text: &str) -> Result<Vec<Prop>, NoMemory> {
    let mut all = Vec::new(alloc);
    for item in text.split('|') {
        let (key, value) = item.split_once('=').unwrap_or(("", ""));
        let key = Text::of(alloc, key)?;
        let text = Text::of(alloc, value)?;
        all.push(Prop { key, text })?;
    }
    Ok(all)
}

fn pairs_shown(alloc: Global, pairs: &[Prop]) -> Result<String, AllocError> {
    let mut all = String::new(alloc);
    for pair in pairs {
        all.push_str(pair.key.as_str())?;
        all.push('=')?;
        all.push_str(pair.text.as_str())?;
        all.push(';')?;
    }
    Ok(all)
}

fn kind_text(kind: OptionKind) -> &'static str {
    match kind {
        OptionKind::Unknown => "unknown",
        OptionKind::Missing => "missing",
        OptionKind::NotAllowed => "not allowed",
        OptionKind::NoMatch => "no match",
        OptionKind::Twice => "twice",
    }
}

/// The settled values, or the fault with its option.
fn settled(alloc: Global, options: &[OptionDef], given: &[Prop]) -> Result<String, AllocError> {
    match settle(alloc, options, given) {
        Ok(values) => pairs_shown(alloc, values.as_slice()),
        Err(OptionErr::Fault(fault)) => {
            format!(in alloc; "{}: {}", fault.name.as_str(), kind_text(fault.kind))
        }
        Err(OptionErr::NoMemory) => String::from_str(alloc, "no memory"),
    }
}

/// The pairs of a text of at most 100 bytes, or the fault.
fn arguments(alloc: Global, text: &str) -> Result<String, AllocError> {
    if text.len() > 100 {
        return String::from_str(alloc, "long");
    }
    match read_args(alloc, text) {
        Ok(pairs) => pairs_shown(alloc, pairs.as_slice()),
        Err(ArgsErr::OpenQuote) => String::from_str(alloc, "open quote"),
        Err(ArgsErr::NotAnOption(_)) => String::from_str(alloc, "not an option"),
        Err(ArgsErr::NoValue(name)) => format!(in alloc; "no value: {}", name.as_str()),
        Err(ArgsErr::NoMemory) => String::from_str(alloc, "no memory"),
    }
}

#[test]
fn values_are_settled_or_the_first_fault_is_told(rt: HostRuntime) -> Result<(), Fail> {
    let options = options(rt.alloc())?;
    for (text, wanted) in &GIVEN {
        let given = pairs_of(rt.alloc(), *text)?;
        let line = settled(rt.alloc(), options.as_slice(), given.as_slice())?;
        assert_eq!(rt; line.as_str(), *wanted, "{text}");
    }
    Ok(())
}

#[test]
fn arguments_are_pairs_of_words(rt: HostRuntime) -> Result<(), Fail> {
    for (text, wanted) in &ARGUMENTS {
        assert_eq!(rt; arguments(rt.alloc(), *text)?.as_str(), *wanted, "{text}");
    }
    Ok(())
}

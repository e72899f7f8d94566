//! Documents of texts, or their faults with the line.
use rb_yaml::{Yaml, YamlErr, YamlKind, read_docs};
use std::alloc::{AllocError, Global};
use std::test::Fail;

/// Adds a value: a text in angles, a sequence in brackets, a map in braces.
fn show(out: &mut String, value: &Yaml) -> Result<(), AllocError> {
    match value {
        Yaml::Scalar { line: _, text } => {
            out.push('<')?;
            out.push_str(text.as_str())?;
            out.push('>')?;
        }
        Yaml::Seq { line: _, items } => {
            out.push('[')?;
            for item in items {
                show(out, item)?;
            }
            out.push(']')?;
        }
        Yaml::Map { line: _, entries } => {
            out.push('{')?;
            for entry in entries {
                out.push('<')?;
                out.push_str(entry.key.as_str())?;
                out.push('>')?;
                show(out, &entry.value)?;
            }
            out.push('}')?;
        }
    }
    Ok(())
}

fn kind_text(alloc: Global, kind: &YamlKind) -> Result<String, AllocError> {
    match kind {
        YamlKind::NotUtf8 => String::from_str(alloc, "NotUtf8"),
        YamlKind::Tab => String::from_str(alloc, "Tab"),
        YamlKind::Indent => String::from_str(alloc, "Indent"),
        YamlKind::Form => String::from_str(alloc, "Form"),
        YamlKind::DuplicateKey => String::from_str(alloc, "DuplicateKey"),
        YamlKind::OutOfProfile(text) => format!(in alloc; "OutOfProfile({})", text.as_str()),
        YamlKind::TooDeep => String::from_str(alloc, "TooDeep"),
        YamlKind::TooLarge => String::from_str(alloc, "TooLarge"),
    }
}

/// The documents, with a blank between them, or the fault with its line.
fn shown(alloc: Global, bytes: &[u8]) -> Result<String, AllocError> {
    match read_docs(alloc, bytes) {
        Ok(docs) => {
            let mut out = String::new(alloc);
            let mut first = true;
            for doc in &docs {
                if !first {
                    out.push(' ')?;
                }
                first = false;
                show(&mut out, &doc.root)?;
            }
            Ok(out)
        }
        Err(YamlErr::Fault(fault)) => {
            let kind = kind_text(alloc, &fault.kind)?;
            format!(in alloc; "{}: {}", fault.line, kind.as_str())
        }
        Err(YamlErr::NoMemory) => String::from_str(alloc, "no memory"),
    }
}

/// The first text that is not read as wanted, with what is read of it; empty where all are.
fn first_wrong(alloc: Global, table: &[(&str, &str)]) -> Result<String, AllocError> {
    for (text, want) in table {
        let got = shown(alloc, text.as_bytes())?;
        if got.as_str() != *want {
            return format!(in alloc; "{text}: {}", got.as_str());
        }
    }
    Ok(String::new(alloc))
}

#[test]
fn nodes_stand_by_their_indents(rt: HostRuntime) -> Result<(), Fail> {
    const TABLE: [(&str, &str); 68] = [
        ("a: b", "{<a><b>}"),
        ("a:\n\tb: c", "2: Tab"),
        ("a:\n  x: 1\n  x: 2\n", "3: DuplicateKey"),
        ("a: &b", "1: OutOfProfile(anchor)"),
        ("'it''s'", "<it's>"),
        ("one\n  two", "<one two>"),
        ("", ""),
        ("# only\n\n  # comments", ""),
        ("\u{feff}a: 1\r\nb: 2\r\n", "{<a><1><b><2>}"),
        ("---\na\n---\n---\n# none\n---\nb", "<a> <b>"),
        ("--- # x\na", "<a>"),
        ("--- x", "1: OutOfProfile(inline document)"),
        ("a\n...", "2: OutOfProfile(document end)"),
        ("%YAML 1.2\na", "1: OutOfProfile(directive)"),
        ("a: 1\n%b", "2: OutOfProfile(directive)"),
        ("---#a", "<---#a>"),
        ("...x", "<...x>"),
        (" ...", "<...>"),
        ("- a\n- b", "[<a><b>]"),
        ("- - a\n  - b\n- c", "[[<a><b>]<c>]"),
        ("- a: 1\n  b: 2\n-\n  c", "[{<a><1><b><2>}<c>]"),
        ("-", "[<>]"),
        ("a:", "{<a><>}"),
        ("a:\nb: x", "{<a><><b><x>}"),
        ("a:\n- x\n- y\nb: 1", "{<a>[<x><y>]<b><1>}"),
        ("a:\n  - x", "{<a>[<x>]}"),
        ("a: 1\n- x", "2: Form"),
        ("- x\na: 1", "2: Form"),
        ("- x\n  y", "[<x y>]"),
        ("a:\n    b: 1\n  c: 2", "3: Indent"),
        ("  a: 1\nb: 2", "2: Indent"),
        ("a: 1\n b: 2", "2: Form"),
        ("a: - b", "1: Form"),
        ("a: -", "1: Form"),
        ("-\t- a", "1: Tab"),
        ("-\ta", "[<a>]"),
        ("- \ta: b", "1: Tab"),
        ("a:\tb", "{<a><b>}"),
        ("a:#b", "<a:#b>"),
        ("a: b #c", "{<a><b>}"),
        ("a: b#c", "{<a><b#c>}"),
        ("a : b", "{<a><b>}"),
        ("\"a\" : b", "{<a><b>}"),
        ("'a': b", "{<a><b>}"),
        ("\"a\":b", "1: Form"),
        ("a: b: c", "1: Form"),
        ("a: b:", "1: Form"),
        ("a:b", "<a:b>"),
        ("a: 1\nb", "2: Form"),
        ("a: 1\n? c", "2: OutOfProfile(complex key)"),
        ("a: 1\n[c", "2: OutOfProfile(multi-line flow)"),
        ("a: 1\n|c", "2: OutOfProfile(literal form)"),
        (": a", "1: Form"),
        (":: x", "1: Form"),
        ("?: x", "{<?><x>}"),
        ("-: x", "{<-><x>}"),
        ("? x", "1: OutOfProfile(complex key)"),
        ("? : x", "1: OutOfProfile(complex key)"),
        ("a: *b", "1: OutOfProfile(alias)"),
        ("a: !b", "1: OutOfProfile(tag)"),
        ("a: >b", "1: OutOfProfile(folded scalar)"),
        ("a: >", "1: OutOfProfile(folded scalar)"),
        ("@a", "1: Form"),
        ("`a", "1: Form"),
        ("a: ,b", "1: Form"),
        ("a: ]", "1: Form"),
        ("&k: *v", "1: OutOfProfile(anchor)"),
        ("\"\\q\": &b", "1: OutOfProfile(anchor)"),
    ];
    let wrong = first_wrong(rt.alloc(), &TABLE)?;
    assert_eq!(rt; wrong.as_str(), "");
    Ok(())
}

#[test]
fn literals_and_quotes_go_over_lines(rt: HostRuntime) -> Result<(), Fail> {
    const TABLE: [(&str, &str); 29] = [
        ("a: |\n  x\n   y\n\n\nb: 1", "{<a><x\n y\n><b><1>}"),
        ("a: |-\n  x\n", "{<a><x>}"),
        ("a: |\n\n\n  x", "{<a><\n\nx\n>}"),
        ("a: |\n   \n  x", "2: Indent"),
        ("a: |\n  x\n y", "3: Indent"),
        ("a: |\n  x\n # c\nb: 1", "{<a><x\n><b><1>}"),
        ("a: |+\n  x", "1: OutOfProfile(literal form)"),
        ("a: | # c\n  x # y", "{<a><x # y\n>}"),
        ("|\nx\n  y", "<x\n  y\n>"),
        ("a: |\nb: 1", "{<a><><b><1>}"),
        ("a: |\n \tx\n", "{<a><\tx\n>}"),
        ("a: |\n  x\n \ty", "3: Indent"),
        ("a: |\n  x\n\ty", "3: Tab"),
        ("a: |\n  x\n     ", "{<a><x\n   \n>}"),
        ("- |\n # x\n y", "[<# x\ny\n>]"),
        ("a: 'b\n  c\n\n  d'", "{<a><b c\nd>}"),
        ("a: 'b\n  # c'", "{<a><b # c>}"),
        ("a: 'b", "1: Form"),
        ("a: 'b\nc'", "1: Form"),
        ("a: 'b\n  \tc'", "2: Tab"),
        ("'a\n---\nb'", "1: Form"),
        ("'a' b", "1: Form"),
        ("'a'#", "1: Form"),
        ("a: 'b'  # c", "{<a><b>}"),
        ("\"a\\n\\t\\\\\\\"\"", "<a\n\t\\\">"),
        ("\"\\/\"", "1: Form"),
        ("\"a", "1: OutOfProfile(multi-line double quote)"),
        ("\"a\\\"", "1: OutOfProfile(multi-line double quote)"),
        ("\"a\nb\"", "1: OutOfProfile(multi-line double quote)"),
    ];
    let wrong = first_wrong(rt.alloc(), &TABLE)?;
    assert_eq!(rt; wrong.as_str(), "");
    Ok(())
}

#[test]
fn flows_stand_on_one_line(rt: HostRuntime) -> Result<(), Fail> {
    const TABLE: [(&str, &str); 39] = [
        ("[a, b]", "[<a><b>]"),
        ("[]", "[]"),
        ("[ ]", "[]"),
        ("{}", "{}"),
        ("{a: b, c: d}", "{<a><b><c><d>}"),
        ("{a: b,}", "{<a><b>}"),
        ("[a,]", "[<a>]"),
        ("[,]", "1: Form"),
        ("[a,,b]", "1: Form"),
        ("[a", "1: OutOfProfile(multi-line flow)"),
        ("[a]b", "1: Form"),
        ("[[a]]", "1: OutOfProfile(nested flow)"),
        ("{a: [b]}", "1: OutOfProfile(nested flow)"),
        ("{\"a\":b}", "{<a><b>}"),
        ("{a:b}", "1: Form"),
        ("{a}", "1: Form"),
        ("{a: }", "1: Form"),
        ("{a: b: c}", "1: Form"),
        ("[a: b]", "1: Form"),
        ("[a}", "1: OutOfProfile(multi-line flow)"),
        ("[a}]", "1: Form"),
        ("[a[b]", "1: Form"),
        ("[it's]", "[<it's>]"),
        ("['a]", "1: OutOfProfile(multi-line flow)"),
        ("[\"a", "1: OutOfProfile(multi-line double quote)"),
        ("[#a]", "1: Form"),
        ("[a #b]", "1: OutOfProfile(multi-line flow)"),
        ("[|a]", "1: Form"),
        ("[&a]", "1: OutOfProfile(anchor)"),
        ("[a,&b,", "1: OutOfProfile(anchor)"),
        ("{a: 1, a: 2}", "1: DuplicateKey"),
        ("{a: 1, a: &b}", "1: OutOfProfile(anchor)"),
        ("[- a]", "1: Form"),
        ("[-]", "1: Form"),
        ("[?]", "1: OutOfProfile(complex key)"),
        ("{? a: b}", "1: OutOfProfile(complex key)"),
        ("{-: b}", "{<-><b>}"),
        ("['a' b]", "1: Form"),
        ("[',', '*a']   # k: v", "[<,><*a>]"),
    ];
    let wrong = first_wrong(rt.alloc(), &TABLE)?;
    assert_eq!(rt; wrong.as_str(), "");
    Ok(())
}

/// So many nested maps, one key a line.
fn nested(alloc: Global, count: usize) -> Result<String, AllocError> {
    let mut text = String::new(alloc);
    for level in 0..count {
        for _ in 0..level {
            text.push(' ')?;
        }
        text.push_str("k:\n")?;
    }
    Ok(text)
}

/// So many times the one text, and then the other.
fn repeated(alloc: Global, part: &str, count: usize, end: &str) -> Result<String, AllocError> {
    let mut text = String::new(alloc);
    for _ in 0..count {
        text.push_str(part)?;
    }
    text.push_str(end)?;
    Ok(text)
}

#[test]
fn deep_and_large_texts_are_refused_at_their_limits(rt: HostRuntime) -> Result<(), Fail> {
    let alloc = rt.alloc();
    for (count, part, end, want) in &[
        (3_000, "- ", "a", "1: TooDeep"),
        (3_000, "- ", "&a", "1: OutOfProfile(anchor)"),
        (3_000, "- ", "%a", "1: Form"),
        (3_000, "- ", "[a]", "1: TooDeep"),
        (3_000, "- ", "'a", "1: Form"),
        (32, "- ", "a: b", "1: TooDeep"),
        (32, "- ", "[a]", "1: TooDeep"),
        (31, "- ", "-\ta: b", "1: Tab"),
        (1_048_577, "\n", "", "1: TooLarge"),
        (1_048_576, "\n", "", ""),
    ] {
        let text = repeated(alloc, *part, *count, *end)?;
        let got = shown(alloc, text.as_bytes())?;
        assert_eq!(rt; got.as_str(), *want, "{end}");
    }
    for (count, is_read) in &[(32, true), (33, false)] {
        let text = nested(alloc, *count)?;
        assert_eq!(rt; read_docs(alloc, text.as_bytes()).is_ok(), *is_read);
    }
    let bad = shown(alloc, &[b'a', b'\n', b'\t', 0xC3, b'\n'])?;
    assert_eq!(rt; bad.as_str(), "2: NotUtf8");
    Ok(())
}

//! Filters in words, with the nodes that they select or their faults.
use rb_causes::{Items, Prop, Text};
use rb_node::{Filter, FilterErr, Node, tags_in};
use rb_text::PatternErr;
use std::alloc::Global;
use std::test::Fail;

/// Filters, whether their exclude clauses go first, and the nodes of the worked inventory.
const SELECTED: [(&str, bool, &str); 9] = [
    ("tags: web+prod,db !name: /web[0-9]/", true, "db1 db2 "),
    (
        "tags: web+prod,db !name: /web[0-9]/",
        false,
        "web1 web2 db1 db2 ",
    ),
    ("!tags: db", true, "web1 web2 web3 bare "),
    ("", true, ""),
    ("web[12] !tags: prod", false, "web1 web2 "),
    ("tags:prod tags:db", true, "db2 "),
    ("os: second", true, ""),
    ("os: '/a,b/'", true, "web2 "),
    ("'na'me:web1", true, "web1 "),
];

const REFUSED: [(&str, FilterErr); 8] = [
    ("a ! b", FilterErr::BadClause { at: 2 }),
    ("a, b :x", FilterErr::BadClause { at: 3 }),
    ("! 'a", FilterErr::BadClause { at: 2 }),
    ("name:a !tags: ", FilterErr::EmptyValue),
    ("a,,b [ :x", FilterErr::EmptyValue),
    ("tags: w.+", FilterErr::EmptyValue),
    (
        "name: /[/ :x",
        FilterErr::BadPattern(PatternErr::BadPattern),
    ),
    ("(\\w{30}){30}", FilterErr::BadPattern(PatternErr::TooBig)),
];

/// A list of texts.
fn texts(alloc: Global, all: &[&str]) -> Result<Items<Text>, Fail> {
    let mut items = Items::new(alloc);
    for text in all {
        items.push(Text::of(alloc, *text)?)?;
    }
    Ok(items)
}

/// A node with these tags, and the attribute `os` where a text for it is given.
fn node(alloc: Global, name: &str, tags: &[&str], os: Option<&str>) -> Result<Node, Fail> {
    let mut attrs = Items::new(alloc);
    if let Some(text) = os {
        attrs.push(Prop {
            key: Text::of(alloc, "os")?,
            text: Text::of(alloc, text)?,
        })?;
        attrs.push(Prop {
            key: Text::of(alloc, "os")?,
            text: Text::of(alloc, "second")?,
        })?;
    }
    Ok(Node {
        name: Text::of(alloc, name)?,
        attrs,
        tags: texts(alloc, tags)?,
    })
}

/// The six nodes of the worked inventory.
fn inventory(alloc: Global) -> Result<Items<Node>, Fail> {
    let mut nodes = Items::new(alloc);
    nodes.push(node(alloc, "web1", &["web", "prod"], Some("linux"))?)?;
    nodes.push(node(alloc, "web2", &["web", "prod"], Some("a,b"))?)?;
    nodes.push(node(alloc, "web3", &["web"], Some("windows"))?)?;
    nodes.push(node(alloc, "db1", &["db"], None)?)?;
    nodes.push(node(alloc, "db2", &["db", "prod"], None)?)?;
    nodes.push(node(alloc, "bare", &[], None)?)?;
    Ok(nodes)
}

/// The names of the nodes that the filter selects, each with a blank behind it.
fn selected(alloc: Global, text: &str, exclude_first: bool) -> Result<String, Fail> {
    let nodes = inventory(alloc)?;
    let mut names = String::new(alloc);
    let Ok(filter) = Filter::read(alloc, text) else {
        names.push_str("refused")?;
        return Ok(names);
    };
    for node in nodes.as_slice() {
        if filter.selects(alloc, node, exclude_first)? {
            names.push_str(node.name.as_str())?;
            names.push(' ')?;
        }
    }
    Ok(names)
}

/// Why the text is no filter, if it is none.
fn refused(alloc: Global, text: &str) -> Option<FilterErr> {
    Filter::read(alloc, text).err()
}

#[test]
fn a_filter_selects_what_it_includes_and_does_not_exclude(rt: HostRuntime) -> Result<(), Fail> {
    for (text, exclude_first, wanted) in &SELECTED {
        let names = selected(rt.alloc(), *text, *exclude_first)?;
        assert_eq!(rt; names.as_str(), *wanted, "{text}");
    }
    Ok(())
}

#[test]
fn the_first_fault_of_a_filter_is_told_with_its_word(rt: HostRuntime) {
    for (text, wanted) in &REFUSED {
        assert_eq!(rt; refused(rt.alloc(), *text), Some(*wanted), "{text}");
    }
}

#[test]
fn a_filter_has_at_most_1024_bytes(rt: HostRuntime) -> Result<(), Fail> {
    let alloc = rt.alloc();
    let mut text = String::new(alloc);
    for _ in 0..1024 {
        text.push('a')?;
    }
    assert_eq!(rt; refused(alloc, text.as_str()), None);
    text.push('\'')?;
    assert_eq!(rt; refused(alloc, text.as_str()), Some(FilterErr::TooLong));
    Ok(())
}

/// The tags of a text, each with a point behind it.
fn tags_shown(alloc: Global, text: &str) -> Result<String, Fail> {
    let mut all = String::new(alloc);
    for tag in tags_in(alloc, text)?.as_slice() {
        all.push_str(tag.as_str())?;
        all.push('.')?;
    }
    Ok(all)
}

#[test]
fn texts_are_lent_and_tags_stand_once(rt: HostRuntime) -> Result<(), Fail> {
    let alloc = rt.alloc();
    assert_eq!(rt;
        Filter::read(alloc, " tags: 'a b' ")?.text(),
        " tags: 'a b' "
    );
    assert_eq!(rt;
        tags_shown(alloc, " web ,, prod,web,\tdb")?.as_str(),
        "web.prod.db."
    );
    let fault = FilterErr::BadClause { at: 3 };
    assert_eq!(rt; format!(in alloc; "{fault}")?.as_str(), "word 3: no clause");
    let web1 = node(alloc, "web1", &[], Some("linux"))?;
    let os = web1.attribute("os").map(|text| text.as_str());
    assert_eq!(rt; os, Some("linux"));
    assert!(rt; web1.attribute("arch").is_none());
    Ok(())
}

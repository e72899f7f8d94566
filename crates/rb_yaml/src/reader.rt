//! Documents from bytes.
ghost use Rattle.rb_yaml.specs.Documents.{docs_of, docs_of_text};
ghost use Rattle.rb_yaml.specs.DocsView.{docs_view};
ghost use Rattle.rb_yaml.specs.Telling.{Gives, excluded_name, is_told_by_name, kind_of, reported, whole_fault, yaml_fault};
ghost use Rattle.rb_causes.specs.Texts.{is_line_feed};
ghost use Rattle.std.specs.Prelude.{◌≡◌, ◌≤◌, ◌^◌, ◌⊎◌, Err, IfOk, Ok, Some, count_by, false, length, suc, take};

use crate::documents::docs_of_text;
use crate::fault::{YamlErr, YamlFault, YamlKind};
use crate::flaw::{Excluded, Fault, Flaw, Stop};
use crate::yaml::Doc;
use rb_causes::{NoMemory, Text};
use std::alloc::Global;
use std::str;

/// How many bytes are read at most.
const MOST_BYTES: usize = 1_048_576;

/// The name by which a form that is not read is refused.
fn excluded_name(excluded: Excluded) -> &'static str
    ensures { result.now ≡ excluded_name excluded }
{
    match excluded {
        Excluded::Anchor => "anchor",
        Excluded::Alias => "alias",
        Excluded::Tag => "tag",
        Excluded::FoldedScalar => "folded scalar",
        Excluded::ComplexKey => "complex key",
        Excluded::LiteralForm => "literal form",
        Excluded::NestedFlow => "nested flow",
        Excluded::MultiLineFlow => "multi-line flow",
        Excluded::MultiLineDoubleQuote => "multi-line double quote",
        Excluded::InlineDocument => "inline document",
        Excluded::DocumentEnd => "document end",
        Excluded::Directive => "directive",
    }
}

fn kind_of(alloc: Global, flaw: Flaw) -> Result<YamlKind, NoMemory>
    ensures exact { IfOk result (λ kind. kind ≡ kind_of flaw) }
    ensures sure { is_told_by_name flaw ≡ false → result ≡ Ok (kind_of flaw) }
{
    match flaw {
        Flaw::Tab => Ok(YamlKind::Tab),
        Flaw::Indent => Ok(YamlKind::Indent),
        Flaw::OutOfProfile(excluded) => Ok(YamlKind::OutOfProfile(Text::of(
            alloc,
            excluded_name(excluded),
        )?)),
        Flaw::Form => Ok(YamlKind::Form),
        Flaw::DuplicateKey => Ok(YamlKind::DuplicateKey),
        Flaw::TooDeep => Ok(YamlKind::TooDeep),
    }
}

fn yaml_fault(kind: YamlKind, line: u32) -> YamlErr
    ensures { result ≡ YamlErr.Fault (record { kind = kind; line = line }) }
{
    YamlErr::Fault(YamlFault { kind, line })
}

/// The fault as it is told. Memory is wanted for the name of a form alone.
fn told_fault(alloc: Global, fault: Fault) -> YamlErr
    ensures exact { (result ≡ YamlErr.NoMemory)
        ⊎ (result ≡ YamlErr.Fault (yaml_fault (kind_of fault.flaw) fault.line)) }
    ensures sure { is_told_by_name fault.flaw ≡ false →
        result ≡ YamlErr.Fault (yaml_fault (kind_of fault.flaw) fault.line) }
{
    match kind_of(alloc, fault.flaw) {
        Ok(kind) => yaml_fault(kind, fault.line),
        Err(NoMemory) => YamlErr::NoMemory,
    }
}

fn count_feeds(bytes: &[u8]) -> u32
    requires { length bytes.now ≤ 2 ^ 20 }
    ensures exact { result ≡ count_by is_line_feed bytes.now }
    ensures few { result ≤ length bytes.now }
{
    let mut count = 0;
    for byte in bytes {
        if *byte == b'\n' {
            count += 1;
        }
    }
    count
}

/// The line of the byte that stands behind so many good ones.
fn bad_line(bytes: &[u8], good: usize) -> u32
    requires good { good ≤ length bytes.now }
    requires small { length bytes.now ≤ 2 ^ 20 }
    ensures { result ≡ suc (count_by is_line_feed (take good bytes.now)) }
{
    count_feeds(&bytes[..good]) + 1
}

/// The documents of a text, or its fault as it is told.
fn read_text(alloc: Global, text: &str) -> Result<Vec<Doc>, YamlErr>
    requires { length text.now ≤ 2 ^ 20 }
    ensures { Gives docs_view result (reported (docs_of_text text.now)) }
{
    match docs_of_text(alloc, text) {
        Ok(docs) => Ok(docs),
        Err(Stop::At(fault)) => Err(told_fault(alloc, fault)),
        Err(Stop::NoMemory) => Err(YamlErr::NoMemory),
    }
}

/// The documents of a text, or the first rule that it breaks, with its line from 1. `YamlKind` says
/// which of several is told. A document without content is passed over.
pub fn read_docs(alloc: Global, bytes: &[u8]) -> Result<Vec<Doc>, YamlErr>
    ensures exact { Gives docs_view result (docs_of bytes.now) }
    ensures whole { (fault : YamlFault) → whole_fault bytes.now ≡ Some fault →
        result ≡ Err (YamlErr.Fault fault) }
{
    if bytes.len() > MOST_BYTES {
        return Err(yaml_fault(YamlKind::TooLarge, 1));
    }
    match str::from_utf8(bytes) {
        Ok(text) => read_text(alloc, text),
        Err(error) => {
            let line = bad_line(bytes, error.valid_up_to());
            Err(yaml_fault(YamlKind::NotUtf8, line))
        }
    }
}

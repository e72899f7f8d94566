//! Which texts may stand somewhere.
ghost use Rattle.rb_causes.specs.Signs.{comma, line_feed};
ghost use Rattle.rb_log.specs.Rows.{is_clean};
ghost use Rattle.rb_manifest.specs.Forms.{is_list_with, is_text_with};
ghost use Rattle.rb_manifest.specs.Rules.{test_of};
ghost use Rattle.rb_yaml.specs.Tree.{yaml_tree};
ghost use Rattle.std.specs.List.{list_all};
ghost use Rattle.std.specs.Prelude.{◌≡◌, ◌||◌, map, nat_eq, not};

use rb_causes::decimal;
use rb_values::{items_in, text_in};
use rb_yaml::Yaml;

/// Which texts may stand somewhere.
#[derive(Clone, Copy, Debug, PartialEq, Eq)]
pub enum TextRule {
    /// All of them.
    Any,
    /// Those without a line feed and a comma, since the log keeps users and groups in one text.
    Clean,
    /// 1 to 18 digits.
    Decimal,
}

fn is_clean(text: &str) -> bool
    ensures { result ≡ is_clean text.now }
{
    text.as_bytes().iter().all(|byte| is_clean_byte(*byte))
}

fn is_clean_byte(byte: u8) -> bool
    ensures { result ≡ not (nat_eq byte line_feed || nat_eq byte comma) }
{
    !(byte == b'\n' || byte == b',')
}

/// Whether the rule lets the text stand.
fn passes(rule: TextRule, text: &str) -> bool
    ensures { result ≡ test_of rule text.now }
{
    match rule {
        TextRule::Any => true,
        TextRule::Clean => is_clean(text),
        TextRule::Decimal => decimal(text).is_some(),
    }
}

/// Whether the value is a text that the rule lets stand.
pub(crate) fn is_text_with(rule: TextRule, value: &Yaml) -> bool
    ensures { result ≡ is_text_with (test_of rule) (yaml_tree value.now) }
{
    match text_in(value) {
        None => false,
        Some(text) => passes(rule, text.as_str()),
    }
}

/// Whether the value is a sequence of such texts.
pub(crate) fn is_list_with(rule: TextRule, value: &Yaml) -> bool
    ensures { result ≡ is_list_with (test_of rule) (yaml_tree value.now) }
{
    match items_in(value) {
        None => false,
        Some(items) => all_pass(rule, items),
    }
}

fn all_pass(rule: TextRule, items: &[Yaml]) -> bool
    ensures { result ≡ list_all (is_text_with (test_of rule)) (map yaml_tree items.now) }
{
    for item in items {
        if !is_text_with(rule, item) {
            return false;
        }
    }
    true
}

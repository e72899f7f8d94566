//! The way out of each rule of YAML that a file may break.
ghost use Rattle.rb_remarks.specs.YamlFaults.{fault_way, form_way};
ghost use Rattle.std.specs.Prelude.{◌≡◌};

use rb_yaml::YamlKind;

/// What to write instead of a form of YAML that is not read, by its name.
fn form_way(form: &str) -> &'static str
    ensures { result.now ≡ form_way form.now }
{
    match form {
        "anchor" => "write the value out at each place: anchors and aliases are not read",
        "alias" => "quote a text that begins with `*`; anchors and aliases are not read",
        "tag" => "quote a text that begins with `!`; tags are not read",
        "folded scalar" => "write a literal (`|`), or the text on one line",
        "complex key" => "write KEY: VALUE",
        "literal form" => "write a literal as `|`, `|-` or `|+` alone, without a number behind it",
        "nested flow" => "write all but one level of { } and [ ] over lines",
        "multi-line flow" => "write all between { } or [ ] on one line, or all over lines",
        "multi-line double quote" => "write all between the quotes on one line, or behind `|`",
        "inline document" => "write what stands behind --- on the next line",
        "document end" => "take ... out, or write --- there",
        "directive" => "take the line that begins with % out",
        _ => "take it out",
    }
}

/// The way out of a rule that is broken.
pub(crate) fn fault_way(kind: &YamlKind) -> &'static str
    ensures { result.now ≡ fault_way kind.now }
{
    match kind {
        YamlKind::TooLarge => "the file has over a megabyte: write it as several",
        YamlKind::NotUtf8 => "the file is no UTF-8 here: write it in UTF-8",
        YamlKind::Tab => "a tab stands where spaces indent: write spaces",
        YamlKind::Indent => "write as many spaces before the line as before its like",
        YamlKind::Form => "quote a text with signs in it, and close each quote",
        YamlKind::DuplicateKey => "the key stands twice in its map: take one of them out",
        YamlKind::TooDeep => "maps and lists are nested over 32 deep",
        YamlKind::OutOfProfile(form) => form_way(form.as_str()),
    }
}

ghost use Rattle.rb_node.specs.Nodes.{attribute, is_own_name};
ghost use Rattle.rb_node.specs.Selection.{shown};
ghost use Rattle.std.specs.Option.{option_copied};
ghost use Rattle.std.specs.Prelude.{◌≡◌, option_map, find, bytes_eq};

use rb_causes::{Items, Prop, Text};
use std::slice;

/// A machine of an inventory: its name, its attributes, of which of equal keys the first counts,
/// and its tags.
#[derive(Drop)]
pub struct Node {
    pub name: Text,
    pub attrs: Items<Prop>,
    pub tags: Items<Text>,
}

impl Node {
    /// The text of an attribute, or None where it is missing. `name` and `nodename` are the node's
    /// own name.
    pub fn attribute(&self, key: &str) -> Option<&Text>
        ensures { option_copied result ≡ attribute self.now key.now }
    {
        if is_own_name(key) {
            return Some(&self.name);
        }
        text_at(self.attrs.as_slice(), key)
    }

    /// The texts under the name of an attribute: each tag, or its one text, or none where it is
    /// missing.
    pub fn shown(&self, attr: &str) -> &[Text]
        ensures { result.now ≡ shown self.now attr.now }
    {
        if attr == "tags" {
            return self.tags.as_slice();
        }
        match self.attribute(attr) {
            Some(text) => slice::from_ref(text),
            None => &[],
        }
    }
}

/// Whether the key means the node's own name: `name` or `nodename`.
pub fn is_own_name(key: &str) -> bool
    ensures { result ≡ is_own_name key.now }
{
    key == "name" || key == "nodename"
}

/// The text of the first property with this key.
fn text_at<'a>(props: &'a [Prop], key: &str) -> Option<&'a Text>
    ensures { option_copied result
        ≡ option_map (λ p. p.text) (find (λ p. bytes_eq p.key key.now) props.now) }
{
    let prop = props.iter().find(|prop| prop.key.as_str() == key)?;
    Some(&prop.text)
}

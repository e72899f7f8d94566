ghost use Rattle.rb_canon.specs.Values as values;
ghost use Rattle.rb_canon.specs.Views.{canon_tree, field_view, key_view};
ghost use Rattle.std.specs.Prelude.{◌≡◌, map};

use rb_causes::Text;

/// A value of a canonical document.
#[derive(Debug, Drop)]
#[cycle(canon)]
pub enum Canon {
    Text(Text),
    List(Vec<Canon>),
    /// A map, with its fields in the order in which they are written.
    Map(Vec<Field>),
}

/// A field of a map.
#[derive(Debug, Drop)]
#[cycle(canon)]
pub struct Field {
    pub key: Key,
    pub value: Canon,
}

/// The key of a field, as it is written.
#[derive(Debug, Drop)]
pub enum Key {
    Plain(Text),
    Quoted(Text),
}

/// A text.
pub fn text(text: Text) -> Canon
    ensures { canon_tree result ≡ values.one_text text }
{
    Canon::Text(text)
}

/// A list of these values.
pub fn list(items: Vec<Canon>) -> Canon
    ensures { canon_tree result ≡ values.list_of (map canon_tree items.items) }
{
    Canon::List(items)
}

/// A map of these fields.
pub fn map(fields: Vec<Field>) -> Canon
    ensures { canon_tree result ≡ values.map_of (map field_view fields.items) }
{
    Canon::Map(fields)
}

impl Field {
    /// This value under this key.
    pub fn of(key: Key, value: Canon) -> Field
        ensures { field_view result ≡ (key_view key, canon_tree value) }
    {
        Field { key, value }
    }
}

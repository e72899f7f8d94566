use rb_causes::{Items, Prop, Text};
use rb_text::{Pattern, Value};

/// Every policy document, in the order in which they are asked: files in byte order of their names,
/// documents in file order.
#[derive(Drop)]
pub struct Policies {
    pub docs: Items<Policy>,
}

/// One policy document.
#[derive(Drop)]
pub struct Policy {
    pub file: Text,
    /// The document's number in its file, from 1.
    pub place: u32,
    pub scope: Scope,
    /// Whom it speaks of: one of these has to hold.
    pub by: Items<ByRule>,
    pub types: Items<TypeRules>,
}

/// Where a policy holds: in the projects of these names, or in the application, whose name is
/// `rundeck`.
#[derive(Drop)]
pub enum Scope {
    Project(Value),
    Application(Value),
}

/// A user, or a group that callers may be in.
#[derive(Drop)]
pub enum ByRule {
    User(Value),
    Group(Value),
}

/// The rules of a policy for one type of resources.
#[derive(Drop)]
pub struct TypeRules {
    pub name: Text,
    pub rules: Items<Rule>,
}

/// Actions that are allowed or denied on the resources that meet every test; `*` stands for any
/// action.
#[derive(Drop)]
pub struct Rule {
    pub allow: Items<Text>,
    pub deny: Items<Text>,
    pub tests: Items<Test>,
}

/// A test of a resource's property: of its text, or of its items. The text of `tags` is the tags
/// joined by commas, and its items are the tags; the items of another property are the parts of its
/// text at commas, trimmed, without empty ones.
#[derive(Drop)]
pub enum Test {
    /// Each of these patterns matches the whole text.
    Match { key: Text, patterns: Items<Pattern> },
    /// The text equals each of these.
    Equals { key: Text, texts: Items<Text> },
    /// Each of these is among the items.
    Contains { key: Text, texts: Items<Text> },
    /// Each item is among these.
    Subset { key: Text, texts: Items<Text> },
}

/// Who asks.
#[derive(Drop)]
pub struct Caller {
    pub user: Text,
    pub groups: Items<Text>,
}

/// Where it is asked: in a project, or outside all of them.
#[derive(Drop)]
pub enum Context {
    Project(Text),
    Application,
}

/// What is asked about. Of properties with equal keys the first counts, and a missing one has the
/// empty text. Under the key `tags` the tags stand for it, whatever property is called so.
#[derive(Drop)]
pub struct Resource {
    pub type_name: Text,
    pub props: Items<Prop>,
    pub tags: Items<Text>,
}

/// A rule's place: the document, the type in it and the rule of that type, each from 0.
#[derive(Clone, Copy, Debug, PartialEq, Eq)]
pub struct Clause {
    pub doc: u32,
    pub type_index: u32,
    pub rule: u32,
}

/// The answer to whether an action may be done, with the clause that decides.
#[derive(Clone, Copy, Debug, PartialEq, Eq)]
pub enum Decision {
    Allowed(Clause),
    Denied(Clause),
    /// No clause that applies allows or denies the action.
    NoneAllows,
}

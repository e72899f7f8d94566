use rb_causes::Text;

/// A rule that a text breaks, in the order in which they are looked for: the first two of the whole
/// text, the others of each line from the first on.
#[derive(Debug, Drop)]
pub enum YamlKind {
    /// The text has over 1,048,576 bytes; the line is 1.
    TooLarge,
    /// The text is not UTF-8; the line is that of the first bad byte.
    NotUtf8,
    /// A tab stands where only spaces indent.
    Tab,
    /// A line of another indent than one that can go on.
    Indent,
    /// A form of YAML that is not read, by its name.
    OutOfProfile(Text),
    /// The line has no form that YAML knows.
    Form,
    /// A key of a map stands twice.
    DuplicateKey,
    /// Collections nest over 32 deep.
    TooDeep,
}

/// The first broken rule of a text, and its line from 1.
#[derive(Debug, Drop)]
pub struct YamlFault {
    pub kind: YamlKind,
    pub line: u32,
}

/// Why a text gives no documents.
#[derive(Debug, Drop)]
pub enum YamlErr {
    Fault(YamlFault),
    NoMemory,
}

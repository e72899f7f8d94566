use rb_job::{Part as JobPart, TextForm as JobTextForm};

/// A map of a document, by what it describes.
#[derive(Clone, Copy)]
pub(crate) enum Part {
    /// A map of a job.
    OfJob(JobPart),
    Policy,
    Context,
    Grants,
    By,
    Rule,
    Patterns,
    Properties,
    Inventory,
    Attributes,
}

/// What a value has to be.
#[derive(Clone, Copy)]
pub(crate) enum Form {
    Text(TextForm),
    /// A text of this form, or a sequence of such.
    Texts(TextForm),
    /// A sequence of texts.
    List,
    Map(Part),
    /// A sequence of such maps, of which there are so many at least and at most.
    Maps {
        part: Part,
        least: usize,
        most: usize,
    },
    /// A map of attributes, or no value.
    Node,
    /// An attribute of a node.
    Attribute(TextForm),
    /// Anything.
    Passed,
    /// Anything without a value beneath.
    Hollow,
    /// No value.
    Blank,
    Unread,
}

/// What a text has to be.
#[derive(Clone, Copy)]
pub(crate) enum TextForm {
    /// A text as jobs have it, and policies and nodes too.
    OfJob(JobTextForm),
    /// A plain text, or else a pattern.
    Value,
    Script,
}

use rb_causes::Text;

/// Where a document of a manifest stands.
#[derive(Drop)]
pub enum Place {
    /// A zone of the manifest in this file. It has no file of its own.
    Zone { file: Text, name: Text, rule: Text },
    /// A policy file; its name is that of the file.
    Policy(Text),
    /// The nodes of a project, which has none where no file is named.
    Nodes { project: Text, file: Option<Text> },
    /// Jobs of a project.
    Jobs { project: Text, file: Text },
}

/// A document and its text.
#[derive(Drop)]
pub struct Document {
    pub place: Place,
    pub body: Text,
}

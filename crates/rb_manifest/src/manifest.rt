use rb_acl::Caller;
use rb_api::Token;
use rb_causes::{Items, Prop, Text};

/// What a server begins with: its documents, whoever imports them, and who may ask it.
#[derive(Drop)]
pub struct Manifest {
    /// Imports the documents; of such jobs nobody's permission was asked.
    pub owner: Caller,
    pub tokens: Items<Token>,
    /// The rules of zones, each under its name.
    pub zones: Items<Prop>,
    /// Names of policy files.
    pub policies: Items<Text>,
    pub projects: Items<ProjectDocs>,
    /// How many tasks a session starts behind a request at most; without it as many as there are.
    pub inline: Option<u64>,
}

/// The documents of a project: the file of its nodes, which are none where it has no file, and the
/// files of its jobs.
#[derive(Drop)]
pub struct ProjectDocs {
    pub name: Text,
    pub nodes: Option<Text>,
    pub jobs: Items<Text>,
}

use crate::route::Route;
use std::marker::Model;

/// What a path asks for: its route, the version, and of what it speaks.
#[derive(Drop)]
pub struct Asked<'p> {
    pub route: Route,
    pub version: &'p str,
    /// The id of a job, the number of an execution, a project or a policy file.
    pub subject: &'p str,
}

impl<'p> Model for Asked<'p> {
    ghost use Rattle.rb_route.specs.Routes.{Asked as AskedOf, asked_at};

    ghost Value = { AskedOf };

    ghost view = { λ a. asked_at a.route a.version.now a.subject.now };
}

//! What holds of all paths: each function is a law, with nothing to run.
ghost use Rattle.rb_route.specs.Router.{MatchitFinds};

/// The router finds what a path asks for by its form.
pub fn matchit_finds()
    ensures { MatchitFinds }
{}

//! What holds of each manifest that is read: each function is a law, with nothing to run.
ghost use Rattle.rb_manifest.specs.Laws.{CallersAreClean, FirstFlawIsTold, FlawlessIsRead, ManifestsAreSound};

/// A manifest with a flaw is refused by its first one.
pub fn first_flaw_is_told()
    ensures { FirstFlawIsTold }
{}

/// A manifest without a flaw is read.
pub fn flawless_is_read()
    ensures { FlawlessIsRead }
{}

/// No user and no group of a manifest has a line feed or a comma.
pub fn callers_are_clean()
    ensures { CallersAreClean }
{}

/// Tokens, zones, policy files and projects of a manifest are few and have different names.
pub fn manifests_are_sound()
    ensures { ManifestsAreSound }
{}

//! What is known of the policies of documents: each function is a law, with nothing to run.
ghost use Rattle.rb_acl_doc.specs.Laws.{ForemostIsTold, SmallAreNumbered};

/// 32 bits number the policies of documents that have fewer than 2^32 values.
pub fn small_are_numbered()
    ensures { SmallAreNumbered }
{}

/// The flaw that is told of a document is the foremost: of those of the earliest kind the first as
/// written.
pub fn foremost_is_told()
    ensures { ForemostIsTold }
{}

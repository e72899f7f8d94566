//! Each function is a law, with nothing to run.
ghost use Rattle.rb_canon_laws.specs.Laws.{CanonIsRead, ReadIsWritable, ShapeIsKept};

/// The text of values that fit in is read as exactly these values, on the lines where they stand.
pub fn canon_is_read()
    ensures { CanonIsRead }
{}

/// Without their lines the trees that are read are those of the values.
pub fn shape_is_kept()
    ensures { ShapeIsKept }
{}

/// Each text and each key of documents that are read can be held by a document again.
pub fn read_is_writable()
    ensures { ReadIsWritable }
{}

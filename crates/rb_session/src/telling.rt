//! The lines that tell what ended a session.
ghost use Rattle.rb_command.specs.Told.{Tells};
ghost use Rattle.rb_session.specs.Lines.{callers_line, full_line, kind_line, line_line, row_line, store_line};
ghost use Rattle.std.specs.Prelude.{◌++◌, codes, option_map};

use itoa::Buffer;
use rb_causes::Sink;
use rb_command::tell;

/// Tells what is wrong with this file as a whole: `rundeskd: FILE: KIND`.
pub(crate) fn tell_kind<O: Sink>(out: &mut O, file: &str, kind: &str)
    ensures { Tells (kind_line file.now kind.now None) (O.shown out.old) (O.shown out.new) }
{
    tell(
        out,
        &[
            b"rundeskd: ".as_slice(),
            file.as_bytes(),
            b": ".as_slice(),
            kind.as_bytes(),
            b"\n".as_slice(),
        ],
    );
}

/// The same, with what that speaks of: `rundeskd: FILE: KIND(TEXT)`.
pub(crate) fn tell_kind_of<O: Sink>(out: &mut O, file: &str, kind: &str, text: &str)
    ensures { Tells (kind_line file.now kind.now (Some text.now))
        (O.shown out.old) (O.shown out.new) }
{
    tell(
        out,
        &[
            b"rundeskd: ".as_slice(),
            file.as_bytes(),
            b": ".as_slice(),
            kind.as_bytes(),
            b"(".as_slice(),
            text.as_bytes(),
            b")\n".as_slice(),
        ],
    );
}

/// Tells that the store failed.
pub fn tell_store<O: Sink>(out: &mut O)
    ensures { Tells store_line (O.shown out.old) (O.shown out.new) }
{
    tell(out, &[b"rundeskd: store failed\n".as_slice()]);
}

/// Tells that the store has no room for a row.
pub fn tell_full<O: Sink>(out: &mut O)
    ensures { Tells full_line (O.shown out.old) (O.shown out.new) }
{
    tell(out, &[b"rundeskd: store is full\n".as_slice()]);
}

/// Tells that the line failed.
pub fn tell_line<O: Sink>(out: &mut O)
    ensures { Tells line_line (O.shown out.old) (O.shown out.new) }
{
    tell(out, &[b"rundeskd: line failed\n".as_slice()]);
}

/// Tells that there was one caller more than a session serves.
pub fn tell_callers<O: Sink>(out: &mut O)
    ensures { Tells callers_line (O.shown out.old) (O.shown out.new) }
{
    tell(out, &[b"rundeskd: too many callers\n".as_slice()]);
}

/// Tells which row of the store may not stand there.
pub fn tell_row<O: Sink>(out: &mut O, row: u64)
    ensures { Tells (row_line row) (O.shown out.old) (O.shown out.new) }
{
    let mut buffer = Buffer::new();
    let number = buffer.format(row).as_bytes();
    tell(
        out,
        &[
            b"rundeskd: store row ".as_slice(),
            number,
            b" is not legal\n".as_slice(),
        ],
    );
}

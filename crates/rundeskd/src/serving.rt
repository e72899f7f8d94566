//! A session, over the world's files, programs and clock.
use crate::answering::answer_over;
use crate::error_sink::ErrorSink;
use crate::null_stream::null_stream;
use rb_causes::{Line, Text};

/// Serves the callers of the line, with the rows in this file, or in memory where there is none;
/// gives the status. Fault lines stand on standard error.
pub fn serve<L: Line + Drop>(rt: &HostRuntime, words: &[Text], file: Option<&str>, line: L) -> u8 {
    // Three streams at most were closed, and each stands until the end.
    let _first = null_stream(rt);
    let _second = null_stream(rt);
    let _third = null_stream(rt);
    answer_over(rt, words, file, line, &mut ErrorSink::new(rt.stderr()))
}

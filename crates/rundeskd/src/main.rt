//! The program: the words of its command line, and the world's files, programs and standard output.
#![tactic(auto)]

mod answering;
mod child_spawner;
mod crew_serving;
mod error_sink;
mod explaining;
mod file_shelf;
mod null_stream;
mod own_text;
mod print_sink;
mod program_words;
mod serving;
mod stdio_line;
mod store;
mod system_clock;

use answering::answer_over;
use crew_serving::serve_crew;
use explaining::tell_remark;
use print_sink::PrintSink;
use program_words::{ProgramWordsErr, program_words};
use rb_causes::Text;
use rb_command::status::{DONE, NO_FORM, NO_MEMORY};
use rb_command::{tell_memory, tell_usage};
use rb_serve::crew_in;
use rb_session_top::{Serving, serving_in, session_in};
use rb_tcp::{CallersLeft, TcpLine};
use serving::serve;
use std::process::ExitCode;
use std::sync::Wait;
use std::thread::Threads;
use std::time;
use stdio_line::StdioLine;

fn main(rt: HostRuntime) -> ExitCode {
    let alloc = rt.alloc();
    let status = match program_words(&rt) {
        Ok(words) => status_of(&rt, &rt, words.as_slice()),
        Err(ProgramWordsErr::NotText) => {
            tell_usage(&mut PrintSink::new(&rt));
            tell_remark(&rt, alloc, NO_FORM, &[], None);
            NO_FORM
        }
        Err(ProgramWordsErr::NoMemory) => {
            tell_memory(&mut PrintSink::new(&rt));
            NO_MEMORY
        }
    };
    ExitCode::from(status)
}

// Does what the words say over the world's objects, and gives the status. Of what is made for it
// nothing is opened before the first call.
fn status_of<R: Threads + Wait + time::Clock + Sync>(
    rt: &HostRuntime,
    threads: &R,
    words: &[Text],
) -> u8 {
    if let Some(serving) = serving_in(words) {
        return serve_address(rt, words, &serving);
    }
    if let Some(crew) = crew_in(words) {
        return serve_crew(rt, threads, words, &crew);
    }
    let line = StdioLine::new(rt, rt.stdin(), rt.stdout());
    match session_in(words) {
        Some(session) => serve(rt, words, session.store, line),
        None => answer_over(rt, words, None, line, &mut PrintSink::new(rt)),
    }
}

// Serves the callers of an address. That all of them were served is told on standard error; each
// other end has its fault line there.
fn serve_address(rt: &HostRuntime, words: &[Text], serving: &Serving<'_>) -> u8 {
    let line = TcpLine::new(rt, serving.address, CallersLeft::of(serving.callers));
    let status = serve(rt, words, serving.store, line);
    if status == DONE {
        let _told = eprintln!(rt; "rundeskd: all callers were served");
    }
    status
}

//! A server of several doors and workers, over the world's files, programs, callers and clock.
ghost use Rattle.rb_serve.specs.Words.{crew_words, crew_words_of};
ghost use Rattle.std.specs.Prelude.{◌≡◌, IfOk, Some, length, option_map};

use crate::child_spawner::ChildSpawner;
use crate::error_sink::ErrorSink;
use crate::explaining::tell_remark;
use crate::file_shelf::FileShelf;
use crate::null_stream::null_stream;
use crate::store::Store;
use crate::system_clock::SystemClock;
use rb_causes::{Clock, NoMemory, Text};
use rb_command::status::{DONE, NO_MEMORY};
use rb_command::tell_memory;
use rb_serve::{Crew, serve_top};
use rb_tcp::{CallersLeft, tcp_lines};
use std::alloc::Global;
use std::sync::Wait;
use std::thread::Threads;
use std::time;

/// Serves the callers of all addresses, with the rows in this file, or in memory where there is
/// none; gives the status. The clock's moment is the number for draws. That all callers were served
/// is told on standard error; each other end has its fault line there.
pub fn serve_crew<R: Threads + Wait + time::Clock + Sync>(
    rt: &HostRuntime,
    threads: &R,
    words: &[Text],
    crew: &Crew<'_>,
) -> u8
    requires { crew_words words.now ≡ Some (crew_words_of crew.now.manifest.now
        (option_map (λ file. file.now) crew.now.store) crew.now.workers crew.now.callers
        crew.now.addresses.now) }
{
    // Three streams at most were closed, and each stands until the end.
    let _first = null_stream(rt);
    let _second = null_stream(rt);
    let _third = null_stream(rt);
    let alloc = rt.alloc();
    let mut told = ErrorSink::new(rt.stderr());
    let Ok(store) = Store::new(*rt, crew.store) else {
        tell_memory(&mut told);
        return NO_MEMORY;
    };
    let left = CallersLeft::of(crew.callers);
    let Ok(mut lines) = tcp_lines(rt, alloc, crew.addresses, left) else {
        tell_memory(&mut told);
        return NO_MEMORY;
    };
    let Ok(mut spawners) = child_spawners(rt, alloc, crew.workers) else {
        tell_memory(&mut told);
        return NO_MEMORY;
    };
    let mut shelf = FileShelf::new(rt);
    let clock = SystemClock::new(rt);
    let draw = clock.now() as u64;
    let (status, _desk) = serve_top(
        threads,
        alloc,
        words,
        &mut shelf,
        &mut lines,
        &mut spawners,
        store,
        &clock,
        draw,
        &mut told,
    );
    tell_remark(rt, alloc, status, words, shelf.last());
    if status == DONE {
        let _told = eprintln!(rt; "rundeskd: all callers were served");
    }
    status
}

/// One for each worker.
fn child_spawners<'a>(
    rt: &'a HostRuntime,
    alloc: Global,
    count: u32,
) -> Result<Vec<ChildSpawner<'a, HostRuntime>>, NoMemory>
    ensures { IfOk result (λ spawners. length spawners.items ≡ count) }
{
    let mut spawners = Vec::new(alloc);
    for _number in 0..count {
        spawners.push(ChildSpawner::new(rt, alloc, rt.stderr()))?;
    }
    Ok(spawners)
}

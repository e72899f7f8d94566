//! `demo`: the demo is played, and what is counted of it is printed.
ghost use Rattle.rb_causes.specs.Sinks.{StopsAtFault};
ghost use Rattle.rb_demo.specs.Counting.{IsPlayed};
ghost use Rattle.rb_demo.specs.declared.counts.Counts.{Counts};
ghost use Rattle.rb_tools.specs.Demo.{PrintsDemo, count_line, counts_text};
ghost use Rattle.std.specs.Prelude.{◌≡◌, ◌≤◌, ◌++◌, ◌⊎◌, IfOk, OnOk, string_bytes};

use crate::printing::print_text;
use rb_causes::{NoMemory, Sink};
use rb_command::status::NO_MEMORY;
use rb_command::tell_memory;
use rb_demo::{Counts, play};
use std::alloc::{AllocError, Global};

/// Plays the demo on a desk of so many nodes, and prints what is counted of it.
pub(crate) fn print_demo<O: Sink>(alloc: Global, nodes: u32, out: &mut O) -> u8
    requires { (1 ≤ nodes) × (nodes ≤ 1000) }
    ensures demo { PrintsDemo nodes result (O.shown out.old) (O.shown out.new) }
    ensures statuses { (result ≡ 0) ⊎ (result ≡ 7) ⊎ (result ≡ 9) }
    ensures out { StopsAtFault (O.shown out.old) (O.shown out.new) }
{
    match played_text(alloc, nodes) {
        Ok(text) => print_text(out, text.as_str()),
        Err(NoMemory) => {
            tell_memory(out);
            NO_MEMORY
        }
    }
}

fn played_text(alloc: Global, nodes: u32) -> Result<String, NoMemory>
    requires { (1 ≤ nodes) × (nodes ≤ 1000) }
    ensures { IfOk result (λ text. (counts : Counts) × IsPlayed nodes counts
        × (string_bytes text ≡ counts_text counts)) }
{
    let counts = play(alloc, nodes)?;
    counts_text(alloc, counts)
}

// A line for each count.
fn counts_text(alloc: Global, counts: Counts) -> Result<String, NoMemory>
    ensures { IfOk result (λ text. string_bytes text ≡ counts_text counts) }
{
    let mut text = String::new(alloc);
    push_count(alloc, &mut text, "nodes", counts.nodes)?;
    push_count(alloc, &mut text, "allowed", counts.allowed)?;
    push_count(alloc, &mut text, "accepted", counts.accepted)?;
    push_count(alloc, &mut text, "denied", counts.denied)?;
    push_count(alloc, &mut text, "begins", counts.begins)?;
    push_count(alloc, &mut text, "succeeded", counts.succeeded)?;
    Ok(text)
}

fn push_count(alloc: Global, text: &mut String, name: &str, count: u64) -> Result<(), NoMemory>
    ensures { OnOk result (string_bytes text.new
        ≡ string_bytes text.old ++ count_line name.now count) }
{
    let line = count_line(alloc, name, count)?;
    text.push_str(line.as_str())?;
    Ok(())
}

fn count_line(alloc: Global, name: &str, count: u64) -> Result<String, AllocError>
    ensures { IfOk result (λ text. string_bytes text ≡ count_line name.now count) }
{
    format!(in alloc; "{name} {count}\n")
}

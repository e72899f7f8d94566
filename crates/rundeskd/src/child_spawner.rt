ghost use Rattle.rundeskd.specs.Children.{IsCodeOf};
ghost use Rattle.std.specs.Prelude.{◌≡◌, ◌≤◌, None, IfOk, IfErr};
ghost use Rattle.std.specs.Process.{command_args, command_program};

use rb_causes::{Ending, Failed, NoMemory, Spawner, Text};
use std::alloc::{AllocError, Global};
use std::io;
use std::io::Eprint;
use std::process::{Child, Command, ExitStatus, Processes, Stdio};
use std::rt::Stderr;

// A program that a signal ended, or whose end is not to be known, has no code of its own.
const NO_CODE: u32 = 256;

/// Starts child processes. A program's name with no `/` is looked for in `PATH`. A child has no
/// input, and what it writes goes to this process's standard error, so that it never stands in a
/// transcript.
#[derive(Drop)]
pub struct ChildSpawner<'a, P: Processes + Eprint> {
    rt: &'a P,
    alloc: Global,
    stderr: Stderr,
    faults: u64,
}

impl<'a, P: Processes + Eprint> ChildSpawner<'a, P> {
    pub fn new(rt: &'a P, alloc: Global, stderr: Stderr) -> ChildSpawner<'a, P> {
        ChildSpawner {
            rt,
            alloc,
            stderr,
            faults: 0,
        }
    }

    // Starts the program.
    fn start(&self, program: &Text, arguments: &[Text]) -> io::Result<Child<P::Started>> {
        let mut command = command_of(self.alloc, program, arguments)?;
        command
            .stdin(Stdio::null())
            .stdout(self.stderr)
            .stderr(self.stderr);
        command.spawn(self.rt)
    }

    // The code of a program that was started, by what waiting for it gave. Where that failed, as in
    // a process whose children nobody may wait for, it has run all the same, and its code is not to
    // be known.
    fn code_at_end(&self, program: &Text, end: io::Result<ExitStatus>) -> u32
        ensures bound { result ≤ 256 }
        ensures code { IfOk end (λ status. IsCodeOf status result) }
        ensures unknown { IfErr end (λ _. result ≡ 256) }
    {
        match end {
            Ok(status) => code_of(status),
            Err(error) => {
                let program = program.as_str();
                let _told = eprintln!(self.rt;
                    "rundeskd: {program} was started, but not waited for: {error}"
                );
                NO_CODE
            }
        }
    }
}

impl<'a, P: Processes + Eprint> Spawner for ChildSpawner<'a, P> {
    ghost shown = { λ s. record { runs = None; faults = s.faults } };

    ghost room = { λ _. 1 };

    fn ready(&mut self) -> Result<(), NoMemory> {
        Ok(())
    }

    fn run(&mut self, words: Vec<Text>) -> Result<Ending, Failed> {
        if let Some((program, arguments)) = words.as_slice().split_first() {
            match self.start(program, arguments) {
                Ok(mut child) => {
                    let code = self.code_at_end(program, child.wait());
                    return Ok(Ending::Code(code));
                }
                Err(error) => {
                    let program = program.as_str();
                    let _told = eprintln!(self.rt; "rundeskd: {program}: {error}");
                }
            }
        }
        self.faults = self.faults.saturating_add(1);
        Err(Failed)
    }
}

// The command of a program with these arguments.
fn command_of(
    alloc: Global,
    program: &Text,
    arguments: &[Text],
) -> Result<Command<Global>, AllocError>
    ensures program { IfOk result (λ command. command_program command ≡ program.now) }
    ensures arguments { IfOk result (λ command. command_args command ≡ arguments.now) }
{
    let mut command = Command::new(alloc, program.as_str())?;
    for argument in arguments {
        command.arg(argument.as_str())?;
    }
    Ok(command)
}

// The exit code, 0 to 255, or 256 after a signal.
fn code_of(status: ExitStatus) -> u32
    ensures bound { result ≤ 256 }
    ensures code { IsCodeOf status result }
{
    match status.code().and_then(|code| u8::try_from(code).ok()) {
        Some(code) => u32::from(code),
        None => NO_CODE,
    }
}

//! The audio service: a file of events in, replies and the frames of the devices out.
#![tactic(auto)]

ghost use Rattle.std.specs.Prelude.{◌≡◌, None, if◌then◌else◌, slice_get};
ghost use Rattle.std.specs.Option.{option_map};
ghost use Rattle.std.specs.Io.KnownBytes.{Keeps};
ghost use Rattle.audio_daemon.specs.Run.{exit_status, is_replay};
ghost use Rattle.audio_daemon.specs.StatusLine.{Finishes};

#[cfg(test)]
mod bad_formats;
#[cfg(test)]
mod bad_rows;
#[cfg(test)]
mod capture_rows;
#[cfg(test)]
mod endpoint_rows;
#[cfg(test)]
mod event_rows;
#[cfg(test)]
mod exchanges;
#[cfg(test)]
mod exclusive_rows;
#[cfg(test)]
mod heard_rows;
#[cfg(test)]
mod notice_rows;
#[cfg(test)]
mod player;
#[cfg(test)]
mod rows;
mod run;
#[cfg(test)]
mod session_rows;
mod status_line;
#[cfg(test)]
mod tests;

use ca_base::{NoMemory, StdSink, StdSource, Words};
use device_io::FileDevices;
use run::are_replay;
pub use run::{Status, run};
use std::env::{self, Env};
use std::io::{ErrorKind, Write};
use std::process::ExitCode;

/// The words of the command line, without the program's name. Words that aren't UTF-8 count as none.
fn read_words<R: Env + AllocGlobal>(rt: &R) -> Result<Words, NoMemory> {
    let mut words = Words::new(rt.alloc());
    let args = match env::args(rt) {
        Ok(args) => args,
        Err(error) if error.kind() == ErrorKind::OutOfMemory => return Err(NoMemory),
        Err(_) => return Ok(words),
    };
    for word in args.skip(1) {
        words.push(word.as_str())?;
    }
    Ok(words)
}

/// The folder of the words `replay FOLDER`, and `None` if the words are others.
fn folder_of(words: &Words) -> Option<&str>
    ensures { option_map (λ folder. folder.now) result ≡
        (if is_replay words.now then slice_get words.now 1 else None) }
{
    if are_replay(words) {
        words.get(1)
    } else {
        None
    }
}

/// Hands on what waits in the output, and answers how the program ends: as its run did, or by a write fault.
fn finish<W: Write + Drop>(output: &mut StdSink<W>, status: Status) -> Status
    ensures ends { Finishes status result output.old output.new }
    ensures keeps { Keeps output.old.bytes output.new.bytes }
{
    match output.flush() {
        Ok(()) => status,
        Err(_) => Status::WriteFault,
    }
}

/// Runs over the real objects. The words are looked at before any other memory is taken.
fn run_here(rt: &HostRuntime) -> Result<Status, NoMemory> {
    let alloc = rt.alloc();
    let words = read_words(rt)?;
    let Some(folder) = folder_of(&words) else {
        return Ok(Status::Usage);
    };
    let devices = FileDevices::new(*rt, alloc, folder)?;
    let mut input = StdSource::new(rt.stdin());
    let mut output = StdSink::new(alloc, rt.stdout())?;
    let (status, _devices) = run(alloc, &words, &mut input, &mut output, devices);
    Ok(finish(&mut output, status))
}

/// Writes the line of a status to standard error, if it has one, and answers the exit status.
fn report<R: Eprint>(rt: &R, status: Status) -> u8
    ensures { result ≡ exit_status status }
{
    if status != Status::Done {
        let _ = eprintln!(rt; "{status}");
    }
    match status {
        Status::Done => 0,
        Status::Usage => 2,
        Status::Malformed { .. } => 3,
        Status::ReadFault => 4,
        Status::WriteFault => 5,
        Status::NoMemory => 6,
        Status::TooLong => 7,
    }
}

fn main(rt: HostRuntime) -> ExitCode {
    let status = match run_here(&rt) {
        Ok(status) => status,
        Err(NoMemory) => Status::NoMemory,
    };
    ExitCode::from(report(&rt, status))
}

//! The program `safetynets`: the top call over the files of the system and the standard streams.
#![tactic(auto)]

ghost use Rattle.std.specs.Prelude.{◌≡◌, ◌<◌};
ghost use Rattle.std.specs.IoError.{error_kind};

use outside_io::{FileSink, FileWorld, Sink, Sinks, Steps, is_want_of_memory};
use replay_cli::{replay_top, without_words};
use std::io::ErrorKind;
use std::marker::Brand;
use std::process::ExitCode;
use std::sync::ledger::{Blank, Ledger};
use std::{env, io};

fn main(rt: HostRuntime) -> ExitCode {
    ExitCode::from(program::<Brand>(rt, Blank::new(1)))
}

/// The words after the program's name.
fn words(rt: &HostRuntime) -> io::Result<Vec<String>> {
    let mut words = Vec::new(rt.alloc());
    for word in env::args(rt)?.skip(1) {
        words.push(word)?;
    }
    Ok(words)
}

/// Tells why the words couldn't be taken, and answers the exit status.
fn stop_without_words<K: Sink>(error: &io::Error, report: &mut K) -> u8
    ensures wanting { error_kind error.now ≡ ErrorKind.OutOfMemory → result ≡ 6 }
    ensures other { (error_kind error.now ≡ ErrorKind.OutOfMemory → ⊥) → result ≡ 2 }
{
    without_words(is_want_of_memory(error), report)
}

/// Runs the top call and answers the exit status.
fn program<L: Ledger>(rt: HostRuntime, blank: Blank) -> u8
    requires name { blank.name ≡ L.name }
    requires parts { blank.parts ≡ L.parts }
    requires some { 0 < blank.parts }
{
    let mut steps = Steps::<L>::new(blank);
    let mut sinks = Sinks {
        out: FileSink::output(&rt),
        report: FileSink::error(&rt),
    };
    let words = match words(&rt) {
        Ok(words) => words,
        Err(error) => return stop_without_words(&error, &mut sinks.report),
    };
    let alloc = rt.alloc();
    let mut world = FileWorld::new(rt);
    replay_top(alloc, &words, &mut world, &mut sinks, &mut steps)
}

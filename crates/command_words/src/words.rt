//! The plan that the command words give.
ghost use Rattle.std.specs.Prelude.{◌≡◌, ◌≢◌, IfErr, IfOk, Ok, Err};
ghost use Rattle.command_words.specs.Words.{texts};
ghost use Rattle.command_words.specs.Plans.{plan_of};

use crate::command::safetynets;
use crate::plan::{Plan, WordsFault};
use crate::values::plan_found;
use clap::error::ErrorKind;
use std::alloc::Global;

/// The plan of the words after the program's name.
pub fn read_words(alloc: Global, words: &[String]) -> Result<Plan, WordsFault>
    ensures plan { IfOk result (λ plan. plan_of (texts words.now) ≡ Ok plan) }
    ensures fault { IfErr result (λ e. e ≢ WordsFault.NoMemory → plan_of (texts words.now) ≡ Err e) }
{
    let command = safetynets(alloc)?;
    match command.try_get_matches_from(words) {
        Ok(found) => plan_found(alloc, &found),
        Err(error) if error.kind() == ErrorKind::OutOfMemory => Err(WordsFault::NoMemory),
        Err(_) => Err(WordsFault::Usage),
    }
}

//! The command `safetynets` as clap knows it.
ghost use Rattle.std.specs.Prelude.{◌≡◌, IfOk, false};
ghost use Rattle.clap.specs.Words.{app_of, rule_of};
ghost use Rattle.command_words.specs.Words as spec;

use clap::{Arg, ArgAction, Command, value_parser};
use std::alloc::{AllocError, Global};

/// The most workers that share a cycle's pairs.
pub const MOST_WORKERS: u32 = 64;

/// The option `--site` of one value.
fn site<'a>(alloc: Global) -> Arg<'a>
    ensures rule { rule_of result ≡ spec.site }
    ensures local { result.global ≡ false }
{
    Arg::new(alloc, "site").long("site").required(true)
}

/// The option `--workers`, an integer of 1 to `MOST_WORKERS`.
fn workers<'a>(alloc: Global) -> Arg<'a>
    ensures rule { rule_of result ≡ spec.workers }
    ensures local { result.global ≡ false }
{
    Arg::new(alloc, "workers")
        .long("workers")
        .required(true)
        .value_parser(value_parser!(u32).range(1..=i64::from(MOST_WORKERS)))
}

/// Any number of feeds.
fn feeds<'a>(alloc: Global) -> Arg<'a>
    ensures rule { rule_of result ≡ spec.feeds }
    ensures local { result.global ≡ false }
{
    Arg::new(alloc, "feed").action(ArgAction::Append)
}

/// The command `replay`.
fn replay<'a>(alloc: Global) -> Result<Command<'a>, AllocError>
    ensures { IfOk result (λ c. app_of c ≡ spec.replay) }
{
    Command::new(alloc, "replay")
        .arg(site(alloc))?
        .arg(feeds(alloc))
}

/// The command `run`.
fn run<'a>(alloc: Global) -> Result<Command<'a>, AllocError>
    ensures { IfOk result (λ c. app_of c ≡ spec.run) }
{
    Command::new(alloc, "run")
        .arg(site(alloc))?
        .arg(workers(alloc))?
        .arg(feeds(alloc))
}

/// The whole: one of the commands has to be there.
pub fn safetynets<'a>(alloc: Global) -> Result<Command<'a>, AllocError>
    ensures { IfOk result (λ c. app_of c ≡ spec.safetynets) }
{
    Command::new(alloc, "safetynets")
        .no_binary_name(true)
        .subcommand_required(true)
        .subcommand(replay(alloc)?)?
        .subcommand(run(alloc)?)
}

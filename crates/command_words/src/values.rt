//! The plan of the values that clap found of a command.
ghost use Rattle.std.specs.Prelude.{◌≡◌, ◌≢◌, IfErr, IfOk, Ok, Err, map};
ghost use Rattle.clap.specs.Words.{found_of, rows_of, subcommand_rows_of};
ghost use Rattle.command_words.specs.Plans.{counted, plan_of_command, replay_of, run_of, site_of, feeds_of, workers_of};

use crate::plan::{MOST_FEEDS, Name, Names, Plan, WordsFault};
use clap::ArgMatches;
use std::alloc::{AllocError, Global};

/// The site's name.
fn site(alloc: Global, values: &ArgMatches<'_>) -> Result<Name, AllocError>
    ensures { IfOk result (λ name. name ≡ site_of (rows_of (found_of values.now))) }
{
    let text = values.get_str("site").unwrap_or("");
    Ok(Name::new(String::from_str(alloc, text)?))
}

/// These texts as names.
fn names(alloc: Global, texts: &[&str]) -> Result<Names, AllocError>
    ensures { IfOk result (λ names. names ≡ map (λ t. t.now) texts.now) }
{
    let mut names = Vec::new(alloc);
    for text in texts {
        names.push(String::from_str(alloc, text)?)?;
    }
    Ok(Names::new(names))
}

/// The feeds' names, of which there have to be 1 to `MOST_FEEDS`.
fn feeds(alloc: Global, values: &ArgMatches<'_>) -> Result<Names, WordsFault>
    ensures ok { IfOk result (λ names. counted (feeds_of (rows_of (found_of values.now))) ≡ Ok names) }
    ensures fault { IfErr result (λ e. e ≢ WordsFault.NoMemory → counted (feeds_of (rows_of (found_of values.now))) ≡ Err e) }
{
    let texts = values.get_strs("feed").unwrap_or(&[]);
    if texts.is_empty() || texts.len() > MOST_FEEDS as usize {
        return Err(WordsFault::Feeds(texts.len().min(u32::MAX as usize) as u32));
    }
    Ok(names(alloc, texts)?)
}

/// The number of workers.
fn workers(values: &ArgMatches<'_>) -> u32
    ensures { result ≡ workers_of (rows_of (found_of values.now)) }
{
    values.get_one::<u32>("workers").unwrap_or(0)
}

/// The plan of the command `replay`.
fn replay(alloc: Global, values: &ArgMatches<'_>) -> Result<Plan, WordsFault>
    ensures plan { IfOk result (λ plan. replay_of (rows_of (found_of values.now)) ≡ Ok plan) }
    ensures fault { IfErr result (λ e. e ≢ WordsFault.NoMemory → replay_of (rows_of (found_of values.now)) ≡ Err e) }
{
    let site = site(alloc, values)?;
    let feeds = feeds(alloc, values)?;
    Ok(Plan::Replay { site, feeds })
}

/// The plan of the command `run`.
fn run(alloc: Global, values: &ArgMatches<'_>) -> Result<Plan, WordsFault>
    ensures plan { IfOk result (λ plan. run_of (rows_of (found_of values.now)) ≡ Ok plan) }
    ensures fault { IfErr result (λ e. e ≢ WordsFault.NoMemory → run_of (rows_of (found_of values.now)) ≡ Err e) }
{
    let site = site(alloc, values)?;
    let workers = workers(values);
    let feeds = feeds(alloc, values)?;
    Ok(Plan::Run {
        site,
        workers,
        feeds,
    })
}

/// The plan of what clap found.
pub fn plan_found(alloc: Global, found: &ArgMatches<'_>) -> Result<Plan, WordsFault>
    ensures plan { IfOk result (λ plan. plan_of_command (subcommand_rows_of found.now) ≡ Ok plan) }
    ensures fault { IfErr result (λ e. e ≢ WordsFault.NoMemory → plan_of_command (subcommand_rows_of found.now) ≡ Err e) }
{
    match found.subcommand() {
        Some((name, values)) => {
            if name == "run" {
                run(alloc, values)
            } else {
                replay(alloc, values)
            }
        }
        None => Err(WordsFault::Usage),
    }
}

//! Command words worked out by hand: which have a plan, and which fault the others have.

use command_words::{Names, Plan, WordsFault, read_words};
use std::alloc::{AllocError, Global};
use std::process::Abort;
use std::test::Fail;

/// What is wanted of words.
#[derive(Clone, Copy)]
enum Wanted<'a> {
    Replay(&'a str, &'a [&'a str]),
    Run(&'a str, u32, &'a [&'a str]),
    Fault(WordsFault),
}

const EIGHT: [&str; 8] = ["a", "b", "c", "d", "e", "f", "g", "h"];

fn owned(alloc: Global, words: &[&str]) -> Result<Vec<String>, AllocError> {
    let mut texts = Vec::new(alloc);
    for word in words {
        texts.push(String::from_str(alloc, word)?)?;
    }
    Ok(texts)
}

fn are(names: &Names, texts: &[&str]) -> bool {
    let names = names.as_slice();
    if names.len() != texts.len() {
        return false;
    }
    for (name, text) in names.iter().zip(texts) {
        if name.as_str() != *text {
            return false;
        }
    }
    true
}

fn is_wanted(plan: &Result<Plan, WordsFault>, wanted: Wanted<'_>) -> bool {
    match (plan, wanted) {
        (Ok(Plan::Replay { site, feeds }), Wanted::Replay(name, texts)) => {
            site.as_str() == name && are(feeds, texts)
        }
        (
            Ok(
                Plan::Run {
                    site,
                    workers,
                    feeds,
                },
            ),
            Wanted::Run(name, number, texts),
        ) => site.as_str() == name && *workers == number && are(feeds, texts),
        (Err(fault), Wanted::Fault(other)) => *fault == other,
        _ => false,
    }
}

fn check(rt: &impl Abort, alloc: Global, words: &[&str], wanted: Wanted<'_>) -> Result<(), Fail> {
    let texts = owned(alloc, words)?;
    let plan = read_words(alloc, texts.as_slice());
    assert!(rt; is_wanted(&plan, wanted), "{words:?}");
    Ok(())
}

/// The words of the usage text.
#[test]
fn plain_words(rt: HostRuntime) -> Result<(), Fail> {
    check(
        &rt,
        rt.alloc(),
        &["replay", "--site", "s.toml", "a.ast"],
        Wanted::Replay("s.toml", &["a.ast"]),
    )?;
    check(
        &rt,
        rt.alloc(),
        &[
            "run",
            "--site",
            "s.toml",
            "--workers",
            "4",
            "a.ast",
            "b.ast",
        ],
        Wanted::Run("s.toml", 4, &["a.ast", "b.ast"]),
    )?;
    check(
        &rt,
        rt.alloc(),
        &["run", "--site", "s", "--workers", "1", "a"],
        Wanted::Run("s", 1, &["a"]),
    )?;
    check(
        &rt,
        rt.alloc(),
        &["run", "--site", "s", "--workers", "64", "a"],
        Wanted::Run("s", 64, &["a"]),
    )?;
    check(
        &rt,
        rt.alloc(),
        &[
            "replay", "--site", "s", "a", "b", "c", "d", "e", "f", "g", "h",
        ],
        Wanted::Replay("s", &EIGHT),
    )
}

/// No feed, and nine of them.
#[test]
fn counts_of_feeds(rt: HostRuntime) -> Result<(), Fail> {
    check(
        &rt,
        rt.alloc(),
        &["replay", "--site", "s"],
        Wanted::Fault(WordsFault::Feeds(0)),
    )?;
    check(
        &rt,
        rt.alloc(),
        &["run", "--site", "s", "--workers", "2"],
        Wanted::Fault(WordsFault::Feeds(0)),
    )?;
    check(
        &rt,
        rt.alloc(),
        &[
            "replay", "--site", "s", "a", "b", "c", "d", "e", "f", "g", "h", "i",
        ],
        Wanted::Fault(WordsFault::Feeds(9)),
    )?;
    check(
        &rt,
        rt.alloc(),
        &[
            "run",
            "--site",
            "s",
            "--workers",
            "2",
            "a",
            "b",
            "c",
            "d",
            "e",
            "f",
            "g",
            "h",
            "i",
        ],
        Wanted::Fault(WordsFault::Feeds(9)),
    )
}

/// Words of no command.
#[test]
fn refused_words(rt: HostRuntime) -> Result<(), Fail> {
    let refused: [&[&str]; 20] = [
        &[],
        &["a.ast"],
        &["Replay", "--site", "s", "a"],
        &["replay"],
        &["replay", "a"],
        &["replay", "--site"],
        &["replay", "--site", "s", "--site", "t", "a"],
        &["replay", "--site", "s", "--workers", "2", "a"],
        &["replay", "--site", "s", "-x"],
        &["run", "--site", "s", "a"],
        &[
            "run",
            "--site",
            "s",
            "--workers",
            "2",
            "--workers",
            "2",
            "a",
        ],
        &["run", "--site", "s", "--workers", "two", "a"],
        &["--site", "s", "replay", "a"],
        &["help"],
        &["help", "replay"],
        &["--help"],
        &["-h"],
        &["--version"],
        &["replay", "--site", "s", "a", "--help"],
        &["run", "--site", "s", "--workers", "2", "-h"],
    ];
    for words in refused {
        check(&rt, rt.alloc(), words, Wanted::Fault(WordsFault::Usage))?;
    }
    Ok(())
}

/// A number of workers, as it is read.
#[test]
fn numbers_of_workers(rt: HostRuntime) -> Result<(), Fail> {
    check(
        &rt,
        rt.alloc(),
        &["run", "--site", "s", "--workers", "0", "a"],
        Wanted::Fault(WordsFault::Usage),
    )?;
    check(
        &rt,
        rt.alloc(),
        &["run", "--site", "s", "--workers", "65", "a"],
        Wanted::Fault(WordsFault::Usage),
    )?;
    check(
        &rt,
        rt.alloc(),
        &["run", "--site", "s", "--workers", "", "a"],
        Wanted::Fault(WordsFault::Usage),
    )?;
    check(
        &rt,
        rt.alloc(),
        &["run", "--site", "s", "--workers", "03", "a"],
        Wanted::Run("s", 3, &["a"]),
    )?;
    check(
        &rt,
        rt.alloc(),
        &["run", "--site", "s", "--workers", "+3", "a"],
        Wanted::Run("s", 3, &["a"]),
    )
}

/// Names that look like something else, and options in other places.
#[test]
fn odd_names_and_places(rt: HostRuntime) -> Result<(), Fail> {
    check(
        &rt,
        rt.alloc(),
        &["replay", "--site", "s", "help"],
        Wanted::Replay("s", &["help"]),
    )?;
    check(
        &rt,
        rt.alloc(),
        &["replay", "--site", "s", "replay", "run"],
        Wanted::Replay("s", &["replay", "run"]),
    )?;
    check(
        &rt,
        rt.alloc(),
        &["replay", "--site", "", "a"],
        Wanted::Replay("", &["a"]),
    )?;
    check(
        &rt,
        rt.alloc(),
        &["replay", "--site", "-", "a"],
        Wanted::Replay("-", &["a"]),
    )?;
    check(
        &rt,
        rt.alloc(),
        &["replay", "--site", "s", "", "-"],
        Wanted::Replay("s", &["", "-"]),
    )?;
    check(
        &rt,
        rt.alloc(),
        &["replay", "--site", "s", "--", "--help", "-x"],
        Wanted::Replay("s", &["--help", "-x"]),
    )?;
    check(
        &rt,
        rt.alloc(),
        &["replay", "a", "--site", "s", "b"],
        Wanted::Replay("s", &["a", "b"]),
    )?;
    check(
        &rt,
        rt.alloc(),
        &["replay", "--site=s", "a"],
        Wanted::Replay("s", &["a"]),
    )?;
    check(
        &rt,
        rt.alloc(),
        &["run", "a", "--workers", "2", "b", "--site", "s"],
        Wanted::Run("s", 2, &["a", "b"]),
    )
}

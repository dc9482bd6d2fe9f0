//! What the command words ask for.
ghost use Rattle.std.specs.Prelude.{◌≡◌, length, map};
ghost use Rattle.std.specs.String.{string_bytes};

use std::alloc::AllocError;
use std::marker::Model;
use thiserror::Error;

/// The most feeds of a command.
pub const MOST_FEEDS: u32 = 8;

/// The name of a file.
#[derive(Debug, Drop)]
pub struct Name {
    text: String,
}

impl Model for Name {
    ghost use Rattle.std.specs.Prelude.{List, ℕ};
    ghost use Rattle.std.specs.String.{string_bytes};

    ghost Value = { List ℕ };

    ghost view = { λ n. string_bytes n.text };
}

impl Name {
    /// This text as a name.
    pub fn new(text: String) -> Name
        ensures { result ≡ string_bytes text }
    {
        Name { text }
    }

    /// The text, to read it.
    pub fn as_str(&self) -> &str
        ensures { result.now ≡ self.now }
    {
        self.text.as_str()
    }

    /// The text, to keep it.
    pub fn into_string(self) -> String
        ensures { string_bytes result ≡ self }
    {
        self.text
    }
}

/// The names of files, in order.
#[derive(Debug, Drop)]
pub struct Names {
    texts: Vec<String>,
}

impl Model for Names {
    ghost use Rattle.std.specs.Prelude.{List, ℕ, map};
    ghost use Rattle.std.specs.String.{string_bytes};

    ghost Value = { List (List ℕ) };

    ghost view = { λ n. map string_bytes n.texts.items };
}

impl Names {
    /// These texts as names.
    pub fn new(texts: Vec<String>) -> Names
        ensures { result ≡ map string_bytes texts.items }
    {
        Names { texts }
    }

    /// How many names there are.
    pub fn len(&self) -> usize
        ensures { result ≡ length self.now }
    {
        self.texts.len()
    }

    /// The texts, to read them.
    pub fn as_slice(&self) -> &[String]
        ensures { map string_bytes result.now ≡ self.now }
    {
        self.texts.as_slice()
    }

    /// The texts, to keep them.
    pub fn into_vec(self) -> Vec<String>
        ensures { map string_bytes result.items ≡ self }
    {
        self.texts
    }
}

/// What the command words ask for.
#[derive(Debug, Drop)]
pub enum Plan {
    /// The alerts of the feeds, in one thread.
    Replay {
        site: Name,
        feeds: Names,
    },
    /// The alerts of the feeds, a thread a feed and each cycle's pairs among so many workers.
    Run {
        site: Name,
        workers: u32,
        feeds: Names,
    },
}

/// Why words have no plan.
#[derive(Clone, Copy, Debug, PartialEq, Eq, Error)]
pub enum WordsFault {
    /// They aren't the words of a command.
    #[error("these are the words of no command")]
    Usage,
    /// A command has so many feeds, at most `u32::MAX` told.
    #[error("no command has {0} feeds")]
    Feeds(u32),
    /// Want of memory.
    #[error("out of memory")]
    NoMemory,
}

impl From<AllocError> for WordsFault {
    ghost use Rattle.std.specs.Prelude.{◌≡◌};
    ghost use Rattle.command_words.specs.declared.plan.WordsFault.TheVariants.{NoMemory};

    ghost from_gives = { λ _ e. e ≡ NoMemory };

    fn from(_: AllocError) -> Self {
        WordsFault::NoMemory
    }
}

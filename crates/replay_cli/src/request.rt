//! What the command words ask to be replayed.
ghost use Rattle.std.specs.Prelude.{◌≡◌, ◌⊎◌, ◌≤◌, None, Some, IfErr, IfOk, length};
ghost use Rattle.replay_cli.specs.Found.{request as requested};
ghost use Rattle.command_words.specs.Words.{texts};
ghost use Rattle.command_words.specs.declared.plan.TheConstants.{MOST_FEEDS};

use crate::texts::FaultText;
use command_words::laws::plans_have_few_feeds;
use command_words::{Name, Names, Plan, WordsFault, read_words};
use std::alloc::Global;

/// The names of a site file and of feeds.
#[derive(Debug, Drop)]
pub struct Request {
    pub site: Name,
    pub feeds: Names,
}

/// What the words ask to be replayed. Other words are told as faulty ones.
#[tactic(auto, unfolding(crate::specs::Found::request))]
pub fn asked(alloc: Global, words: &[String]) -> Result<Request, FaultText>
    ensures asked { IfOk result (λ r. requested (texts words.now) ≡ Some r) }
    ensures few { IfOk result (λ r. length r.feeds ≤ MOST_FEEDS) }
    ensures fault { IfErr result (λ e. (e ≡ FaultText.NoMemory) ⊎ ((e ≡ FaultText.Usage) × (requested (texts words.now) ≡ None))) }
{
    // The proof takes this law; the call does nothing.
    plans_have_few_feeds();
    match read_words(alloc, words) {
        Ok(Plan::Replay { site, feeds }) => Ok(Request { site, feeds }),
        Ok(Plan::Run { .. }) | Err(WordsFault::Usage | WordsFault::Feeds(_)) => {
            Err(FaultText::Usage)
        }
        Err(WordsFault::NoMemory) => Err(FaultText::NoMemory),
    }
}

//! What the words' plan keeps.
ghost use Rattle.std.specs.Prelude.{◌≡◌, ◌≤◌, ◌↔◌, List, ℕ, Ok, Err, length};
ghost use Rattle.command_words.specs.Words.{Refuses};
ghost use Rattle.command_words.specs.Plans.{ArePlainFeeds, HaveOtherFeeds, IsPlain, plan_of, replay_words, run_words};
ghost use Rattle.command_words.specs.declared.command.TheConstants.{MOST_WORKERS};
ghost use Rattle.command_words.specs.declared.plan.TheConstants.{MOST_FEEDS};
ghost use Rattle.command_words.specs.declared.plan.Plan.TheVariants.{Replay, Run};
ghost use Rattle.command_words.specs.declared.plan.WordsFault.TheVariants.{Usage, Feeds};

/// A command with one plain word for its site and 1 to 8 for its feeds has the plan with just these.
pub fn plain_words_have_a_plan()
    ensures replay { (site : List ℕ) (feeds : List (List ℕ)) → IsPlain site → ArePlainFeeds feeds → plan_of (replay_words site feeds) ≡ Ok (Replay site feeds) }
    ensures run { (site : List ℕ) (workers : ℕ) (feeds : List (List ℕ)) → IsPlain site → 1 ≤ workers → workers ≤ MOST_WORKERS → ArePlainFeeds feeds → plan_of (run_words site workers feeds) ≡ Ok (Run site workers feeds) }
{}

/// A plan to replay has no more feeds than a command may have.
pub fn plans_have_few_feeds()
    ensures { (words : List (List ℕ)) (site : List ℕ) (feeds : List (List ℕ)) → plan_of words ≡ Ok (Replay site feeds) → length feeds ≤ MOST_FEEDS }
{}

/// Words without a plan are those that clap refuses, and those that give too few feeds or too many.
pub fn words_without_a_plan()
    ensures usage { (words : List (List ℕ)) → (plan_of words ≡ Err Usage) ↔ Refuses words }
    ensures feeds { (words : List (List ℕ)) (told : ℕ) → (plan_of words ≡ Err (Feeds told)) ↔ HaveOtherFeeds words told }
{}

/// The numbers of the words, as numerals.
pub fn numbers()
    ensures feeds { MOST_FEEDS ≡ 8 }
    ensures workers { MOST_WORKERS ≡ 64 }
{}

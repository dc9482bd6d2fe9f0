//! The numbers of the turn's word: a law is the contract of a function that does nothing.
ghost use Rattle.std.specs.Prelude.{◌≡◌};
ghost use Rattle.turn_lock.specs.declared.turn.TheConstants.{LAST};
ghost use Rattle.turn_lock.specs.Words.{last_give, last_word};

/// The free word before the last give (2^64 - 4), the number of the last give (2^63 - 1), and the word after it
/// (2^64 - 1).
pub fn numbers()
    ensures before { LAST ≡ 18446744073709551612 }
    ensures give { last_give ≡ 9223372036854775807 }
    ensures word { last_word ≡ 18446744073709551615 }
{}

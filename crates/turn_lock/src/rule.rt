//! What a turn's seats know, the rule that holds between any two atomic steps, and what each step tells.
ghost use Rattle.std.specs.Prelude.{◌≡◌, ℕ, List, ℤ, Option, Some, None};

use atomic_table::{Join, Play, Split, TableRule};
use std::collections::LinkedList;
use std::marker::{Brand, PhantomData};
use std::snapshot::Snapshot;

/// A value with a past: the entries that were given with it, each with the number of the seat that gave it.
pub trait Logged {
    /// What a give says of itself. It is plain data.
    type Entry;

    /// The value stands for this history.
    ghost stands: { Self → List (ℕ × Self.Entry) → Type 0 };

    /// What no give changes.
    ghost setting: { Self → List ℤ };
}

/// What a seat at the table knows. No value of it is made.
pub struct View<E> {
    pub actor: u64,
    /// Not so once the seat was joined.
    pub live: bool,
    pub holds: bool,
    /// The word that a take has loaded, until its exchange.
    pub loaded: Option<u64>,
    pub setting: LinkedList<i64>,
    pub seen: LinkedList<(u64, E)>,
    /// A history that this seat was told of by the one that it took in.
    pub told: LinkedList<(u64, E)>,
    pub mine: LinkedList<(u64, E)>,
    pub tried: LinkedList<(u64, u64)>,
    pub made: u64,
    pub joined: LinkedList<(u64, LinkedList<(u64, E)>)>,
}

/// The rule. Its key is the value that the turn was made with.
pub struct OneHistory;

impl<T: Logged> TableRule<Option<T>, View<T::Entry>, Snapshot<T>> for OneHistory {
    ghost use Rattle.turn_lock.specs.OneHistory as rule;
    ghost use Rattle.turn_lock.specs.Steps.{first_view};

    ghost holds = { λ key. rule.OneHistory T.stands T.setting (T.setting key.value) };

    ghost first = { λ key. first_view (T.setting key.value) };
}

/// A load in a take.
pub struct Load;

impl<T, E> Play<Option<T>, View<E>> for Load {
    ghost use Rattle.turn_lock.specs.Steps.{Loads};

    ghost then = { Loads };
}

/// The exchange of a take.
pub struct Try;

impl<T: Logged> Play<Option<T>, View<T::Entry>> for Try {
    ghost use Rattle.turn_lock.specs.Steps.{Tries};

    ghost then = { Tries T.stands T.setting };
}

/// The entry of a give, for the proof alone. A call at `Brand` picks it.
pub trait Said<E> {
    ghost entry: { Option E };
}

impl<E> Said<E> for Brand {
    ghost entry = { None };
}

/// The swap of a give.
pub struct Give<A> {
    said: PhantomData<A>,
}

impl<T, E, A: Said<E>> Play<Option<T>, View<E>> for Give<A> {
    ghost use Rattle.turn_lock.specs.Steps.{Gives};

    ghost then = { Gives A.entry };
}

/// A new seat beside seat 0.
pub struct Cut;

impl<E> Split<View<E>> for Cut {
    ghost use Rattle.turn_lock.specs.Steps.{has_split, split_off};

    ghost left = { has_split };

    ghost right = { split_off };
}

/// A seat that goes into seat 0.
pub struct Glue;

impl<E> Join<View<E>> for Glue {
    ghost use Rattle.turn_lock.specs.Steps.{has_joined, spent};

    ghost both = { has_joined };

    ghost spent = { spent };
}

/// The load after a join.
pub struct Compare;

impl<T, E> Play<Option<T>, View<E>> for Compare {
    ghost use Rattle.turn_lock.specs.Steps.{Compares};

    ghost then = { Compares };
}

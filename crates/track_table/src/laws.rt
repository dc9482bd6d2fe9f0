//! Laws of the definitions and of the numbers: each is the contract of a function that does nothing.
ghost use Rattle.std.specs.Prelude.{◌≡◌, ℕ, ◌+◌, ◌<◌, ◌≤◌, List, [], ◌∷◌, ◌++◌, length, map, Some, None, ℤ, pos, neg_ℤ, ◌≤ℤ◌, ◌<ℤ◌, ◌+ℤ◌, ◌*ℤ◌, ◌*◌, ◌↔◌, All, Contains, IsTrue};
ghost use Rattle.std.specs.List.Sorted.{IsNonDecreasingBy, IsStrictlySortedBy};
ghost use Rattle.track_motion.specs.declared.rank.Stamped.{Stamped};
ghost use Rattle.track_motion.specs.declared.track.Track.{Track};
ghost use Rattle.track_motion.specs.declared.track.TrackKey.{TrackKey};
ghost use Rattle.track_motion.specs.declared.motion.TheConstants.{LONGEST_AGE};
ghost use Rattle.track_motion.specs.Keys.{key_cmp};
ghost use Rattle.track_table.specs.declared.clock.TheConstants.{MOST_TRACKS};
ghost use Rattle.track_table.specs.Kept.{AreDue};
ghost use Rattle.track_table.specs.KeyOrder.{key_number};
ghost use Rattle.track_table.specs.Order.{AreRanked, AreSame};
ghost use Rattle.track_table.specs.Proper.{IsProper, IsTold, frozen_of};
ghost use Rattle.track_table.specs.Stamps.{clock_after, clock_of, stamp_of, stamps_of, stamps_of_feeds};
ghost use Rattle.track_table.specs.Tables.{IsHighest, IsRowOf, due, highest, is_row, of_key, table};
ghost use Rattle.track_table.specs.Times.{AreDayCycles, IsNear, IsTime, at_near, cycle_time, day, half_day};

/// The day and half of one in ticks of 1/128 s, the most tracks of a feed (2^39), the ends of the times (2^62), and
/// a key as one number: 2^24 for each system area code, 2^16 for each system identification code.
pub fn numbers()
    ensures day { day ≡ pos 11059200 }
    ensures half { half_day ≡ pos 5529600 }
    ensures most { MOST_TRACKS ≡ 549755813888 }
    ensures times { (time : ℤ) → IsTime time ↔ ((neg_ℤ (pos 4611686018427387904) ≤ℤ time) × (time <ℤ pos 4611686018427387904)) }
    ensures key { (key : TrackKey) → key_number key ≡ key.sac * 16777216 + key.sic * 65536 + key.number }
{}

/// A time of day names one time near the present one.
pub fn one_near_time()
    ensures near { (present : ℤ) (time : ℕ) → IsNear present time (at_near present time) }
    ensures only { (present : ℤ) (time : ℕ) (at : ℤ) → IsNear present time at → at ≡ at_near present time }
{}

/// A cycle ends no later than those after it.
pub fn cycles_in_order()
    ensures { (start period : ℤ) (k l : ℕ) → pos 0 ≤ℤ period → k ≤ l → cycle_time start period k ≤ℤ cycle_time start period l }
{}

/// The stamps of a feed come one after the other, each by the clock after those before it.
pub fn stamps_one_by_one()
    ensures stamps { (start period : ℤ) (feed : ℕ) (tracks : List Track) (track : Track)
        → stamps_of start period feed (tracks ++ track ∷ []) ≡ stamps_of start period feed tracks ++ stamp_of (clock_of start period tracks) feed (length tracks) track ∷ [] }
    ensures clock { (start period : ℤ) (tracks : List Track) (track : Track) → clock_of start period (tracks ++ track ∷ []) ≡ clock_after (clock_of start period tracks) track }
{}

/// A feed's clock never falls back, and each track moves it on by half a day at most.
pub fn clock_in_reach()
    ensures low { (start period : ℤ) (tracks : List Track) → start ≤ℤ (clock_of start period tracks).latest }
    ensures high { (start period : ℤ) (tracks : List Track) → (clock_of start period tracks).latest ≤ℤ (start +ℤ pos (length tracks) *ℤ half_day) }
{}

/// The windows of a feed never fall, and each record is told before its window ends.
pub fn windows_of_a_feed()
    ensures rising { (start period : ℤ) (feed : ℕ) (tracks : List Track) → pos 1 ≤ℤ period → IsNonDecreasingBy (λ s. s.window) (stamps_of start period feed tracks) }
    ensures inside { (start period : ℤ) (feed : ℕ) (tracks : List Track) → pos 1 ≤ℤ period → All (λ s. s.at <ℤ cycle_time start period s.window) (stamps_of start period feed tracks) }
{}

/// Where cycles begin at a time of day, a feed of at most `MOST_TRACKS` tracks keeps to times: after fewer of them
/// the next one is told at a time, its window ends at one, and so does each earlier cycle.
pub fn feeds_keep_to_time()
    ensures stamp { (start period : ℤ) (tracks : List Track) (track : Track) → AreDayCycles start period → length tracks < MOST_TRACKS
        → IsTime (at_near (clock_of start period tracks).latest track.time) }
    ensures window { (start period : ℤ) (feed place : ℕ) (tracks : List Track) (track : Track) → AreDayCycles start period → length tracks < MOST_TRACKS
        → IsTime (cycle_time start period (stamp_of (clock_of start period tracks) feed place track).window) }
    ensures earlier { (start period : ℤ) (k l : ℕ) → AreDayCycles start period → k ≤ l → IsTime (cycle_time start period l) → IsTime (cycle_time start period k) }
{}

/// Of the records of all feeds no two have the same rank: those of one feed are at different places.
pub fn feeds_are_ranked()
    ensures { (start period : ℤ) (feeds : List (List Track)) → AreRanked (stamps_of_feeds start period feeds) }
{}

/// The highest of records is one of them that none outranks; there is one unless there are no records.
pub fn highest_is_one()
    ensures one { (records : List Stamped) (r : Stamped) → highest records ≡ Some r → IsHighest records r }
    ensures none { (records : List Stamped) → highest records ≡ None → records ≡ [] }
{}

/// A table has its rows in the order of their keys; each is a record that was told in time and that no other
/// of its track outranks, and each such record is a row.
pub fn rows_of_a_table()
    ensures rising { (start period timeout : ℤ) (k : ℕ) (records : List Stamped) → IsStrictlySortedBy key_cmp (map (λ r. r.track.key) (table start period timeout k records)) }
    ensures each { (start period timeout : ℤ) (k : ℕ) (records : List Stamped) → All (IsRowOf start period timeout k records) (table start period timeout k records) }
    ensures all { (start period timeout : ℤ) (k : ℕ) (records : List Stamped) (r : Stamped)
        → highest (of_key r.track.key (due k records)) ≡ Some r → IsTrue (is_row (cycle_time start period k) timeout r) → Contains (table start period timeout k records) r }
{}

/// A table doesn't depend on the order in which the records that are due are listed, nor on how often each is,
/// where no two have the same rank.
pub fn tables_of_the_same_records()
    ensures table { (start period timeout : ℤ) (k : ℕ) (records others : List Stamped) → AreRanked records → AreSame (due k records) (due k others)
        → table start period timeout k records ≡ table start period timeout k others }
    ensures due { (k : ℕ) (records : List Stamped) → AreDue k records → due k records ≡ records }
{}

/// A table of records as feeds tell them is proper, where they are rows for no longer than tracks are moved on.
pub fn tables_are_proper()
    ensures { (start period timeout : ℤ) (k : ℕ) (records : List Stamped)
        → pos 0 ≤ℤ period → timeout ≤ℤ pos LONGEST_AGE → All (IsTold start period) records → IsProper (frozen_of start period timeout k records) }
{}

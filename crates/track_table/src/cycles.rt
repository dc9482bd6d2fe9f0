//! Laws of which cycles are made: each is the contract of a function that does nothing.
ghost use Rattle.std.specs.Prelude.{◌≤◌, ◌<◌, ℕ, List, All, Contains};
ghost use Rattle.track_motion.specs.declared.rank.Stamped.{Stamped};
ghost use Rattle.track_table.specs.Cycles.{cycles_of};

/// So many cycles are made of records that each record is told in one of them, and no more than that takes.
pub fn cycles_of_records()
    ensures each { (records : List Stamped) (r : Stamped) → Contains records r → r.window < cycles_of records }
    ensures few { (records : List Stamped) (k : ℕ) → All (λ r. r.window < k) records → cycles_of records ≤ k }
{}

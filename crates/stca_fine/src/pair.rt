//! Short term conflict alert: whether a pair is hit, and the figures of the hit.
ghost use Rattle.std.specs.Prelude.{◌≡◌, ◌+◌, ◌||◌, int_le, IfSome, min, pos, unsigned_abs};
ghost use Rattle.site_types.specs.Ranges.{IsSet};
ghost use Rattle.stca_fine.specs.Relative.{ArePair};
ghost use Rattle.stca_fine.specs.Stca.{IsAhead, IsInRoom, figures as figures_of, stca_hit};

use crate::early::stay_apart;
use crate::hit::{LARGEST_CHS, LARGEST_SEPARATION, StcaHit};
use crate::limits::by_split;
use crate::relative::Relative;
use outside_io::Steps;
use site_types::{Net, Set};
use std::sync::ledger::Ledger;
use tick_sets::laws::searches_find_the_first;
use track_motion::Motion;

/// The hit of a pair of tracks by the pair's set. None where the pair isn't hit. It counts one step.
pub fn examine<L: Ledger>(
    a: &Motion,
    b: &Motion,
    set: &Set,
    steps: &mut Steps<L>,
) -> Option<StcaHit>
    requires pair { ArePair a.now b.now }
    requires set { IsSet set.now }
    ensures hit { result ≡ stca_hit a.now b.now set.now }
    ensures room { IfSome result (IsInRoom set.now) }
    ensures step { steps.new ≡ steps.old + 1 }
{
    steps.tick();
    if stay_apart(a, b, set) {
        return None;
    }
    examine_near(a, b, set)
}

/// The same as `examine`, of two tracks wherever they are.
fn examine_near(a: &Motion, b: &Motion, set: &Set) -> Option<StcaHit>
    requires pair { ArePair a.now b.now }
    requires set { IsSet set.now }
    ensures hit { result ≡ stca_hit a.now b.now set.now }
    ensures room { IfSome result (IsInRoom set.now) }
{
    let apart = Relative::between(a, b);
    let now_v = by_split(a, b, set, set.now_v_low, set.now_v_high);
    if apart.is_in_proximity(set.now_h, now_v) {
        return Some(figures(&apart, set, true, 0));
    }
    // The proof takes this law; the call does nothing.
    searches_find_the_first();
    let v = by_split(a, b, set, set.v_low, set.v_high);
    let first = apart.first_within(set.h, v, set.look_ahead(Net::Stca))?;
    Some(figures(&apart, set, false, first))
}

/// The figures of a pair that is hit from this tick on.
fn figures(apart: &Relative, set: &Set, current: bool, first: i64) -> StcaHit
    requires set { IsSet set.now }
    requires first { IsAhead set.now first }
    ensures figures { result ≡ figures_of apart.now set.now current (unsigned_abs first) }
    ensures room { IsInRoom set.now result }
{
    let closest = apart.closest_tick(set.look_ahead(Net::Stca));
    StcaHit {
        first,
        closest: i64::from(closest),
        chs: apart.horizontal(0).min(u64::from(LARGEST_CHS)) as u32,
        mhs: separation(apart.horizontal(closest)),
        cvs: separation(apart.vertical(0)),
        mvs: separation(apart.vertical(closest)),
        current,
        urgent: is_urgent(current, first, set),
    }
}

/// A hit is urgent in current proximity, and where the conflict begins soon.
fn is_urgent(current: bool, first: i64, set: &Set) -> bool
    ensures { result ≡ (current || int_le first set.now.urgent) }
{
    current || first <= set.urgent
}

/// A separation as its field of 16 bits tells it.
fn separation(units: u64) -> u16
    ensures { result ≡ min units LARGEST_SEPARATION }
{
    units.min(u64::from(LARGEST_SEPARATION)) as u16
}

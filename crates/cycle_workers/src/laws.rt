//! Laws of the definitions: each is the contract of a function that does nothing.
ghost use Rattle.std.specs.Prelude.{◌≡◌, ◌↔◌, ◌*◌, ◌-◌, length};
ghost use Rattle.std.specs.List.{Contains};
ghost use Rattle.alert_states.specs.declared.event.Hit.{Hit};
ghost use Rattle.site_types.specs.declared.net.Net.TheVariants.{Stca};
ghost use Rattle.site_types.specs.declared.site.Site.{Site};
ghost use Rattle.track_table.specs.Proper.{IsProper};
ghost use Rattle.track_table.specs.declared.table.Frozen.{Frozen};
ghost use Rattle.cycle_workers.specs.Eligible.{movers};
ghost use Rattle.cycle_workers.specs.Hits.{count_examined, hits_of};
ghost use Rattle.cycle_workers.specs.Members.{IsHitOf};
ghost use Rattle.cycle_workers.specs.Settings.{Setting};

/// The hits of a table are exactly those of its pairs of eligible rows, the one with the lower key first, and of its
/// eligible rows by the terrain, by each volume and by each funnel.
pub fn hits_in_words()
    ensures { (s : Setting) (frozen : Frozen) (hit : Hit) → IsProper frozen → Contains (hits_of s frozen) hit ↔ IsHitOf s frozen hit }
{}

/// Of so many eligible rows each pair is examined once: half of their number times one less.
pub fn pairs_in_words()
    ensures { (site : Site) (frozen : Frozen) → count_examined site frozen * 2 ≡ length (movers site Stca frozen) * (length (movers site Stca frozen) - 1) }
{}

//! Parts of the airspace that a site file sets: regions and volumes.
ghost use Rattle.std.specs.Prelude.{◌≡◌};

use crate::pair_list::Pairs;
use std::marker::Model;

/// Where another parameter set holds than the first.
#[derive(Debug, Drop)]
pub struct Region {
    /// The set's place among the site's.
    pub set: u32,
    /// From floor to ceiling, in 1/30,720 of 25 ft.
    pub floor: i64,
    pub ceiling: i64,
    /// The polygon's points on the system plane, x and y in 1/512 m.
    pub points: Pairs,
}

/// An airspace volume.
#[derive(Debug, Drop)]
pub struct Volume {
    /// From floor to ceiling, in 1/30,720 of 25 ft.
    pub floor: i64,
    pub ceiling: i64,
    /// The polygon's points on the system plane, x and y in 1/512 m.
    pub points: Pairs,
    /// From when to when on each day it is active, in ticks of 1/128 s; always, where nothing is said.
    pub active: Option<Pairs>,
}

/// Regions in file order.
#[derive(Debug, Drop)]
pub struct Regions {
    regions: Vec<Region>,
}

impl Model for Regions {
    ghost use Rattle.std.specs.Prelude.{List};
    ghost use Rattle.site_types.specs.declared.airspace.Region.{Region};

    ghost Value = { List Region };

    ghost view = { λ list. list.regions.items };
}

impl Regions {
    /// These regions as a list.
    pub fn new(regions: Vec<Region>) -> Regions
        ensures { result ≡ regions.items }
    {
        Regions { regions }
    }

    /// The regions, to read them.
    pub fn as_slice(&self) -> &[Region]
        ensures { result.now ≡ self.now }
    {
        self.regions.as_slice()
    }

    /// The regions, to keep them.
    pub fn into_vec(self) -> Vec<Region>
        ensures { result.items ≡ self }
    {
        self.regions
    }
}

/// Airspace volumes in file order.
#[derive(Debug, Drop)]
pub struct Volumes {
    volumes: Vec<Volume>,
}

impl Model for Volumes {
    ghost use Rattle.std.specs.Prelude.{List};
    ghost use Rattle.site_types.specs.declared.airspace.Volume.{Volume};

    ghost Value = { List Volume };

    ghost view = { λ list. list.volumes.items };
}

impl Volumes {
    /// These volumes as a list.
    pub fn new(volumes: Vec<Volume>) -> Volumes
        ensures { result ≡ volumes.items }
    {
        Volumes { volumes }
    }

    /// The volumes, to read them.
    pub fn as_slice(&self) -> &[Volume]
        ensures { result.now ≡ self.now }
    {
        self.volumes.as_slice()
    }

    /// The volumes, to keep them.
    pub fn into_vec(self) -> Vec<Volume>
        ensures { result.items ≡ self }
    {
        self.volumes
    }
}

//! The nets of a site, made ready once for all cycles.
ghost use Rattle.std.specs.Prelude.{◌≡◌, IfOk};
ghost use Rattle.site_types.specs.Ranges.{AreFunnels, AreVolumes, IsSite};
ghost use Rattle.terrain_file.specs.Ranges.{IsTerrain};
ghost use Rattle.cycle_workers.specs.Settings.{setting};

use crate::NoMemory;
use airspace_volumes::Area;
use approach_funnel::Approach;
use site_types::Site;
use std::alloc::Global;
use std::marker::Model;
use terrain_cells::Ground;
use terrain_file::Terrain;

/// A site over a terrain, with what is made ready of them.
#[derive(Drop)]
pub struct Nets<'a> {
    site: &'a Site,
    ground: Ground<'a>,
    /// Those of the site's volumes.
    areas: Vec<Area<'a>>,
    /// Those of the site's funnels.
    approaches: Vec<Approach<'a>>,
}

impl<'a> Model for Nets<'a> {
    ghost use Rattle.cycle_workers.specs.Nets.{AreReady};
    ghost use Rattle.cycle_workers.specs.Settings.{Setting, setting};

    ghost Value = { Setting };

    ghost view = { λ nets. setting nets.site.now nets.ground };

    ghost invariant = { λ nets. AreReady nets.site.now nets.ground nets.areas.items nets.approaches.items };
}

/// The areas of the site's volumes.
fn areas_of<'a>(alloc: Global, site: &'a Site) -> Result<Vec<Area<'a>>, NoMemory>
    ensures { IfOk result (λ areas. areas.items ≡ site.now.volumes) }
{
    let volumes = site.volumes.as_slice();
    let mut areas = Vec::with_capacity(alloc, volumes.len())?;
    for volume in volumes {
        areas.push(Area::of(volume))?;
    }
    Ok(areas)
}

/// The approaches of the site's funnels.
fn approaches_of<'a>(alloc: Global, site: &'a Site) -> Result<Vec<Approach<'a>>, NoMemory>
    requires { AreFunnels site.now.funnels }
    ensures { IfOk result (λ approaches. approaches.items ≡ site.now.funnels) }
{
    let funnels = site.funnels.as_slice();
    let mut approaches = Vec::with_capacity(alloc, funnels.len())?;
    for funnel in funnels {
        approaches.push(Approach::of(funnel))?;
    }
    Ok(approaches)
}

impl<'a> Nets<'a> {
    /// The nets of a site over a terrain.
    pub fn of(alloc: Global, site: &'a Site, terrain: &'a Terrain) -> Result<Nets<'a>, NoMemory>
        requires site { IsSite site.now }
        requires terrain { IsTerrain terrain.now }
        ensures { IfOk result (λ nets. nets ≡ setting site.now terrain.now) }
    {
        Ok(Nets {
            site,
            ground: Ground::of(terrain),
            areas: areas_of(alloc, site)?,
            approaches: approaches_of(alloc, site)?,
        })
    }

    /// The site.
    pub fn site(&self) -> &'a Site
        ensures site { result.now ≡ self.now.site }
        ensures range { IsSite result.now }
    {
        self.site
    }

    /// The ground of the terrain.
    pub fn ground(&self) -> &Ground<'a>
        ensures terrain { result.now ≡ self.now.terrain }
        ensures range { IsTerrain result.now }
    {
        &self.ground
    }

    /// The areas of the site's volumes, in file order.
    pub fn areas(&self) -> &[Area<'a>]
        ensures areas { result.now ≡ self.now.site.volumes }
        ensures range { AreVolumes result.now }
    {
        self.areas.as_slice()
    }

    /// The approaches of the site's funnels, in file order.
    pub fn approaches(&self) -> &[Approach<'a>]
        ensures approaches { result.now ≡ self.now.site.funnels }
        ensures range { AreFunnels result.now }
    {
        self.approaches.as_slice()
    }
}

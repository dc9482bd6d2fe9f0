//! What stands under a name: the site of a site file, a terrain, and the content of a feed. What is opened is closed again,
//! whatever came.
ghost use Rattle.std.specs.Prelude.{◌≡◌, ◌≤◌, ◌⊎◌, false, length, Err, IfErr, IfOk, IsErrOf, Ok, Some};
ghost use Rattle.outside_io.specs.Faults.{Rose};
ghost use Rattle.outside_io.specs.Names.{Lacks};
ghost use Rattle.site_types.specs.Ranges.{IsSite};
ghost use Rattle.feed_reader.specs.Feeds.{AreTellable, IsTellable};
ghost use Rattle.replay_cli.specs.Found.{ReadsEach, ReadsNamed, TextOf, IsGround, IsReading, IsTerrainReading};
ghost use Rattle.replay_cli.specs.Endings.{StopsAmong, StopsSite, StopsTerrain, leaves_unread as unread};
ghost use Rattle.terrain_file.specs.Ranges.{IsTerrain};

use crate::texts::FaultText;
use crate::texts::causes::{refused, refused_terrain, unread_of};
use command_words::{Name, Names};
use feed_reader::{Input, read_whole};
use outside_io::{Unread, World, read_text};
use site_params::{SITE_ROOM, read_site};
use site_types::Site;
use std::alloc::Global;
use terrain_file::{TERRAIN_ROOM, Terrain, read_terrain};

/// The text under a name, and at most so many octets of it.
fn text_under<W: World>(
    alloc: Global,
    world: &mut W,
    name: &str,
    most: usize,
) -> Result<Vec<u8>, Unread>
    ensures told { IfOk result (λ text. TextOf (W.files world.old) name.now most text.items) }
    ensures opened { IsErrOf result Unread.Unopened → Lacks (W.files world.old) name.now ⊎ Rose (W.faults world.old) (W.faults world.new) }
    ensures failed { IsErrOf result Unread.Broken → Rose (W.faults world.old) (W.faults world.new) }
    ensures lacking { Lacks (W.files world.old) name.now → IsErrOf result Unread.Unopened }

    // What stays as it was.
    ensures files { W.files world.new ≡ W.files world.old }
    ensures closed { W.opened world.new ≡ W.opened world.old }
    ensures kept { (IsErrOf result Unread.Unopened → ⊥) → (IsErrOf result Unread.Broken → ⊥) → W.faults world.new ≡ W.faults world.old }
    ensures later { W.faults world.old ≤ W.faults world.new }
{
    let mut file = world.open(alloc, name)?;
    let text = read_text(alloc, &mut file, most);
    world.close(file);
    text
}

/// The content of the feed under a name.
pub fn feed_under<W: World>(alloc: Global, world: &mut W, name: &str) -> Result<Input, Unread>
    ensures told { IfOk result (λ input. ReadsNamed (W.files world.old) name.now input) }
    ensures tellable { IfOk result IsTellable }
    ensures opened { IsErrOf result Unread.Unopened → Lacks (W.files world.old) name.now ⊎ Rose (W.faults world.old) (W.faults world.new) }
    ensures failed { IsErrOf result Unread.Broken → Rose (W.faults world.old) (W.faults world.new) }
    ensures lacking { Lacks (W.files world.old) name.now → IsErrOf result Unread.Unopened }

    // What stays as it was.
    ensures files { W.files world.new ≡ W.files world.old }
    ensures closed { W.opened world.new ≡ W.opened world.old }
    ensures kept { (IsErrOf result Unread.Unopened → ⊥) → (IsErrOf result Unread.Broken → ⊥) → W.faults world.new ≡ W.faults world.old }
    ensures later { W.faults world.old ≤ W.faults world.new }
{
    let mut feed = world.open(alloc, name)?;
    let input = read_whole(alloc, &mut feed);
    world.close(feed);
    input
}

/// The site that the file under a name sets.
pub fn site_of<W: World>(alloc: Global, world: &mut W, name: Name) -> Result<Site, FaultText>
    ensures site { IfOk result (λ site. IsReading (W.files world.old) name (Ok site)) }
    ensures accepted { IfOk result IsSite }
    ensures fault { IfErr result (StopsSite (W.files world.old) (W.faults world.old) (W.faults world.new) name) }

    // What stays as it was.
    ensures files { W.files world.new ≡ W.files world.old }
    ensures closed { W.opened world.new ≡ W.opened world.old }
    ensures kept { unread result ≡ false → W.faults world.new ≡ W.faults world.old }
    ensures later { W.faults world.old ≤ W.faults world.new }
{
    let text = match text_under(alloc, world, name.as_str(), SITE_ROOM + 1) {
        Ok(text) => text,
        Err(unread) => return Err(unread_of(unread, name)),
    };
    match read_site(alloc, &text) {
        Ok(site) => Ok(site),
        Err(fault) => Err(refused(fault)),
    }
}

/// The terrain that the file under a name is.
fn terrain_under<W: World>(alloc: Global, world: &mut W, name: Name) -> Result<Terrain, FaultText>
    ensures terrain { IfOk result (λ terrain. IsTerrainReading (W.files world.old) name (Ok terrain)) }
    ensures accepted { IfOk result IsTerrain }
    ensures fault { IfErr result (StopsTerrain (W.files world.old) (W.faults world.old) (W.faults world.new) (Some name)) }

    // What stays as it was.
    ensures files { W.files world.new ≡ W.files world.old }
    ensures closed { W.opened world.new ≡ W.opened world.old }
    ensures kept { unread result ≡ false → W.faults world.new ≡ W.faults world.old }
    ensures later { W.faults world.old ≤ W.faults world.new }
{
    let bytes = match text_under(alloc, world, name.as_str(), TERRAIN_ROOM + 1) {
        Ok(bytes) => bytes,
        Err(unread) => return Err(unread_of(unread, name)),
    };
    match read_terrain(alloc, &bytes) {
        Ok(terrain) => Ok(terrain),
        Err(fault) => Err(refused_terrain(fault)),
    }
}

/// The terrain under a site: that of the file that it names, or the one without a cell.
pub fn terrain_of<W: World>(alloc: Global, world: &mut W, site: &Site) -> Result<Terrain, FaultText>
    ensures terrain { IfOk result (IsGround (W.files world.old) site.now.terrain) }
    ensures accepted { IfOk result IsTerrain }
    ensures fault { IfErr result (StopsTerrain (W.files world.old) (W.faults world.old) (W.faults world.new) site.now.terrain) }

    // What stays as it was.
    ensures files { W.files world.new ≡ W.files world.old }
    ensures closed { W.opened world.new ≡ W.opened world.old }
    ensures kept { unread result ≡ false → W.faults world.new ≡ W.faults world.old }
    ensures later { W.faults world.old ≤ W.faults world.new }
{
    match &site.terrain {
        None => Ok(Terrain::none(alloc)),
        Some(file) => {
            let name = Name::new(String::from_str(alloc, file.as_str())?);
            terrain_under(alloc, world, name)
        }
    }
}

/// The contents of the feeds under these names, in order.
pub fn feeds_of<W: World>(
    alloc: Global,
    world: &mut W,
    names: Names,
) -> Result<Vec<Input>, FaultText>
    ensures told { IfOk result (λ inputs. ReadsEach (W.files world.old) names inputs.items) }
    ensures tellable { IfOk result (λ inputs. AreTellable inputs.items) }
    ensures count { IfOk result (λ inputs. length inputs.items ≡ length names) }
    ensures fault { IfErr result (StopsAmong (W.files world.old) (W.faults world.old) (W.faults world.new) names) }

    // What stays as it was.
    ensures files { W.files world.new ≡ W.files world.old }
    ensures closed { W.opened world.new ≡ W.opened world.old }
    ensures kept { unread result ≡ false → W.faults world.new ≡ W.faults world.old }
    ensures later { W.faults world.old ≤ W.faults world.new }
{
    let mut names = names.into_vec();
    let mut inputs = Vec::new(alloc);
    for i in 0..names.len() {
        match feed_under(alloc, world, &names[i]) {
            Ok(input) => inputs.push(input)?,
            Err(unread) => return Err(unread_of(unread, Name::new(names.swap_remove(i)))),
        }
    }
    Ok(inputs)
}

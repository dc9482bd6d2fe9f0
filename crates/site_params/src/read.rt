//! A text as a site.

ghost use Rattle.std.specs.Prelude.{◌≡◌, ◌≢◌, IfOk, IfErr, Ok, Err};
ghost use Rattle.site_fields.specs.declared.fault.SiteFault.TheVariants.{NoMemory};
ghost use Rattle.site_types.specs.Ranges.{IsSite};
ghost use Rattle.site_params.specs.Site.{document, site_of_text};
ghost use Rattle.toml.specs.View.{table_view};

use crate::fields::site_of;
use site_fields::{Place, SiteFault};
use site_types::Site;
use std::alloc::Global;
use toml::Table;

/// The octets that a site file has at most.
pub const SITE_ROOM: usize = 4_194_304;

/// The document that a text is.
fn document(alloc: Global, text: &[u8]) -> Result<Table, SiteFault>
    ensures ok { IfOk result (λ table. document text.now ≡ Ok (table_view table)) }
    ensures fault { IfErr result (λ e. e ≢ NoMemory → document text.now ≡ Err e) }
{
    match toml::table_from_slice(alloc, text) {
        Ok(table) => Ok(table),
        Err(refused) if refused.is_memory() => Err(SiteFault::NoMemory),
        Err(_) => Err(SiteFault::Syntax),
    }
}

/// The site that a text is, or its first fault.
#[tactic(auto, unfolding(crate::specs::Site::site_of_text))]
pub fn read_site(alloc: Global, text: &[u8]) -> Result<Site, SiteFault>
    ensures ok { IfOk result (λ site. site_of_text text.now ≡ Ok site) }
    ensures fault { IfErr result (λ e. e ≢ NoMemory → site_of_text text.now ≡ Err e) }
    ensures accepted { IfOk result IsSite }
{
    if SITE_ROOM < text.len() {
        return Err(SiteFault::Long);
    }
    let table = document(alloc, text)?;
    site_of(
        alloc,
        &Place {
            table: &table,
            entry: 0,
        },
    )
}

//! Sites of texts.
ghost use Rattle.std.specs.Prelude.{IfOk};
ghost use Rattle.site_types.specs.Ranges.{IsSite};

use site_params::{SiteFault, read_site};
use site_types::Site;
use std::alloc::{AllocError, Global};
use std::process::Abort;

/// The site of a text that is accepted, but for want of memory.
pub fn site_of(rt: &impl Abort, alloc: Global, text: &str) -> Result<Site, AllocError>
    ensures { IfOk result (λ site. IsSite site) }
{
    match read_site(alloc, text.as_bytes()) {
        Ok(site) => Ok(site),
        Err(fault) => {
            assert_eq!(rt; fault, SiteFault::NoMemory);
            Err(AllocError)
        }
    }
}

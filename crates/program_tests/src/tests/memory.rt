//! Want of memory.

use super::cycles::{GOES_ON, recorded};
use std::test::Fail;

/// With memory it is done; where an allocation is refused, the bytes of some whole cycles were written.
#[test]
fn want_of_memory(rt: HostRuntime) -> Result<(), Fail> {
    let ran = recorded(rt.alloc(), &[])?;
    if ran.status == 6 {
        assert!(rt; [0, 42, 68, 94, 120].contains(&ran.out.len()));
        assert!(rt; GOES_ON.starts_with(&ran.out));
    } else {
        assert_eq!(rt; ran.status, 0);
        assert!(rt; ran.out.as_slice() == GOES_ON.as_slice());
    }
    Ok(())
}

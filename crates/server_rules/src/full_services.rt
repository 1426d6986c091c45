//! The services for which a scan had no room, so that each is told once, and not again as long as
//! that lasts.
use s6_events::Name;
use std::alloc::{AllocError, Global};
use std::{mem, str};
use tree_core::Listed;

/// The services for which the last scan had no room, because the tree had as many as it may have.
#[derive(Drop)]
pub struct FullServices {
    alloc: Global,
    names: Vec<Name>,
}

impl FullServices {
    /// There was room for all.
    pub fn new(alloc: Global) -> FullServices {
        FullServices {
            alloc,
            names: Vec::new(alloc),
        }
    }

    // Whether the scan before had no room for it either.
    fn was_full(&self, name: &Name) -> bool {
        self.names.as_slice().contains(name)
    }

    /// Takes in what a scan found. Returns a line `svscan: NAME full` for each service for which it
    /// had no room, except those that the scan before had no room for either. Where memory is
    /// refused, it still remembers the scan before.
    pub fn lines_of(&mut self, listed: &[Listed]) -> Result<Vec<u8>, AllocError> {
        let mut lines = Vec::new(self.alloc);
        let mut names = Vec::new(self.alloc);
        for one in listed {
            // The scan had no room for this service.
            if let Listed::Full(name) = one {
                if !self.was_full(name) {
                    push_full(&mut lines, name)?;
                }
                names.push(*name)?;
            }
        }
        let _before = mem::replace(&mut self.names, names);
        Ok(lines)
    }
}

// Adds the line of a service for which a scan had no room.
fn push_full(lines: &mut Vec<u8>, name: &Name) -> Result<(), AllocError> {
    lines.extend_from_slice(b"svscan: ")?;
    lines.extend_from_slice(name.as_bytes())?;
    lines.extend_from_slice(b" full\n")
}

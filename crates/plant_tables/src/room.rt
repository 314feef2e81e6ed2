//! The memory that a reading needs, taken once, before the first byte is read.
ghost use Rattle.std.specs.Prelude.{IfOk};
ghost use Rattle.plant_tables.specs.Room.{Reserved, Ready};

use crate::plant::Tables;
use std::alloc::{AllocError, Global};
use weights::{Class, Cost};

/// The most bytes that a text may have.
pub const MAX_BYTES: usize = 4096;

/// The most links that a text may tell.
pub const MAX_LINKS: usize = 64;

/// The most changes that a text may tell.
pub const MAX_CHANGES: usize = 128;

/// Room for the numbers of one line, and for a plant of either kind of weights. It holds no facts, as the tables hold none:
/// who has it may use its memory as he likes.
#[derive(Drop)]
pub struct Room {
    pub numbers: Vec<u32>,
    pub costs: Tables<Cost>,
    pub classes: Tables<Class>,
}

impl Room {
    /// Takes all the memory that reading any text can need. Nothing else of a reading asks for memory.
    pub fn reserve(heap: Global) -> Result<Room, AllocError>
        ensures { IfOk result Ready }
    {
        Ok(Room {
            numbers: Vec::with_capacity(heap, MAX_BYTES)?,
            costs: Tables::reserve(heap)?,
            classes: Tables::reserve(heap)?,
        })
    }
}

impl<W: Drop> Tables<W> {
    /// Empty tables with room for as many links and changes as a text may tell.
    fn reserve(heap: Global) -> Result<Tables<W>, AllocError>
        ensures { IfOk result Reserved }
    {
        Ok(Tables {
            n: 0,
            ends: Vec::with_capacity(heap, MAX_LINKS)?,
            links: Vec::with_capacity(heap, MAX_LINKS)?,
            link_lines: Vec::with_capacity(heap, MAX_LINKS)?,
            changes: Vec::with_capacity(heap, MAX_CHANGES)?,
            change_lines: Vec::with_capacity(heap, MAX_CHANGES)?,
        })
    }
}

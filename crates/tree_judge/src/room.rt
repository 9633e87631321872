//! The room in which an answer is checked.

ghost use Rattle.std.specs.Prelude.{◌≡◌, IfOk};
ghost use Rattle.tree_judge.specs.Room.{nothing_kept};

use crate::loads::Loads;
use crate::search_room::SearchRoom;
use crate::way::Way;
use cert_tree::Turn;
use net_graph::{EdgeState, VertexState};
use std::alloc::{AllocError, Global};
use std::mem::size_of;

// The sizes of which `bytes_of` speaks.
const _: () = prove!(size_of::<EdgeState>() == 1);

const _: () = prove!(size_of::<VertexState>() == 1);

const _: () = prove!(size_of::<Turn>() == 12);

/// What a judge works in, for an answer on a graph of E edges and V vertices. It takes 21 E + 17 V + 3060 bytes, and no
/// more however long the answer.
#[derive(Drop)]
pub struct Room {
    /// The loads of a leaf's cuts.
    pub(crate) loads: Loads,
    /// The way to the node that is read.
    pub(crate) way: Way,
    /// What a search works in.
    pub(crate) search: SearchRoom,
}

impl Room {
    /// The room for an answer on a graph of so many edges and vertices, in which nothing is loaded or decided. An `Err`
    /// is want of memory.
    pub fn new(alloc: Global, edges: u32, vertices: u32) -> Result<Room, AllocError>
        ensures { IfOk result (λ room. room ≡ nothing_kept edges vertices) }
    {
        Ok(Room {
            loads: Loads::new(alloc, edges)?,
            way: Way::new(alloc, edges, vertices)?,
            search: SearchRoom::new(alloc, vertices)?,
        })
    }
}

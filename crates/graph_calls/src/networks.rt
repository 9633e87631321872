//! What is told of a set of edges as a network.

ghost use Rattle.std.specs.Prelude.{◌≡◌, ◌≤◌, length};

use crate::described::{edges, try_graph};
use crate::told::tell_edges;
use net_graph::{EdgeSet, NetGraph, first_apart, first_apart_within, joins, length, root_part};
use row_tables::{Call, Fault, Told};
use std::alloc::{AllocError, Global};

/// The fault of the graph under `graph`; or what is told of its edges under `edges`: whether they are a network, the
/// first terminal apart, the same by a search in lent room, their length and their root part.
pub fn network(alloc: Global, call: &Call, told: &mut Told) -> Result<(), Fault> {
    match try_graph(alloc, call)? {
        Ok(g) => tell_network(alloc, call, &g, told),
        Err(fault) => {
            told.line("", &fault);
            Ok(())
        }
    }
}

// What is told where the graph has no fault.
fn tell_network(alloc: Global, call: &Call, g: &NetGraph, told: &mut Told) -> Result<(), Fault> {
    let set = edges(alloc, call, g, "edges")?;
    tell_set(alloc, g, &set, told)
}

// What is told of a set.
fn tell_set(alloc: Global, g: &NetGraph, set: &EdgeSet, told: &mut Told) -> Result<(), Fault>
    requires { length set.now ≡ length g.now.edges }
{
    if g.terminal_count() > 255 {
        return Err(Fault::NotAllowed);
    }
    told.line("joins ", &joins(alloc, g, set)?);
    told.word("apart ");
    told.debug(&first_apart(alloc, g, set)?);
    told.debug_line(", in lent room ", &apart_within(alloc, g, set)?);
    told.line("length ", &length(g, set));
    tell_edges(told, "root part", &root_part(alloc, g, set)?);
    Ok(())
}

// The first terminal apart, by a search in lent room of one number more than there are vertices.
fn apart_within(alloc: Global, g: &NetGraph, set: &EdgeSet) -> Result<Option<u8>, AllocError>
    requires size { length set.now ≡ length g.now.edges }
    requires few { length g.now.terminals ≤ 255 }
{
    let room = g.vertex_count() as usize + 1;
    let mut marks = vec![in alloc; 1; room]?;
    let mut queue = vec![in alloc; 9; room]?;
    Ok(first_apart_within(g, set, &mut marks, &mut queue))
}

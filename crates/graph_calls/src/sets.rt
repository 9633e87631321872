//! Sets of edges and of vertices.

ghost use Rattle.std.specs.Prelude.{◌≡◌, length};

use crate::described::only;
use crate::told::{tell_edges, tell_vertices};
use net_graph::{EdgeSet, VertexSet};
use row_tables::{Call, Fault, Told, exactly, narrow};
use std::alloc::Global;

/// A set among so many edges as `size` says, once those under `add` are added and then those under `remove` are taken
/// out: its copy, and what it holds once it is cleared.
pub fn edge_set(alloc: Global, call: &Call, told: &mut Told) -> Result<(), Fault> {
    let size = only(call.text("size")?)?;
    let added = call.narrow_numbers(alloc, "add")?;
    let removed = call.narrow_numbers(alloc, "remove")?;
    tell_set(alloc, size, &added, &removed, told)
}

// Tells of a set, and of what it holds once it is cleared.
fn tell_set(
    alloc: Global,
    size: u32,
    added: &[u32],
    removed: &[u32],
    told: &mut Told,
) -> Result<(), Fault> {
    let mut set = EdgeSet::empty(alloc, size)?;
    change(&mut set, added, removed);
    let copy = set.copy()?;
    set.clear();
    tell_edges(told, "copy", &copy);
    tell_edges(told, "cleared", &set);
    Ok(())
}

// Adds edges to a set, and then takes out others.
fn change(set: &mut EdgeSet, added: &[u32], removed: &[u32]) {
    for n in added {
        if *n < set.len() {
            set.add(*n);
        }
    }
    for n in removed {
        if *n < set.len() {
            set.remove(*n);
        }
    }
}

/// A set among so many vertices as `size` says, once those are added, four by four, that each line under `fours` says:
/// its place, and the value of its bits. Its words are told, and its members.
pub fn fours(alloc: Global, call: &Call, told: &mut Told) -> Result<(), Fault> {
    let size = only(call.text("size")?)?;
    let lines = call.text("fours")?;
    tell_fours(lines, &mut VertexSet::empty(alloc, size)?, told)
}

// Adds what the lines say, and tells of the set.
fn tell_fours(lines: &str, set: &mut VertexSet, told: &mut Told) -> Result<(), Fault> {
    add_fours(lines, set)?;
    tell_words(set, told);
    tell_vertices(told, "members", set);
    Ok(())
}

// Adds what each line says.
fn add_fours(lines: &str, set: &mut VertexSet) -> Result<(), Fault> {
    for line in lines.lines() {
        let [place, value] = exactly::<2>(line)?;
        add_four(narrow(place)?, value, set)?;
    }
    Ok(())
}

// Adds those of four vertices that the bits of a value say.
fn add_four(place: u32, value: u64, set: &mut VertexSet) -> Result<(), Fault> {
    if value > 15 || place >= set.len() / 4 {
        return Err(Fault::NotAllowed);
    }
    set.add_four(place, value as u8);
    Ok(())
}

// Tells the words of a set.
fn tell_words(set: &VertexSet, told: &mut Told) {
    for place in 0..set.len().div_ceil(64) {
        told.hex_line("word ", set.word(place));
    }
}

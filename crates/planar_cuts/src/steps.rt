//! The steps of a curve: from a face to the next one across an arc.

use crate::faces::Faces;
use cut_groups::{NONE, Tree, add_at, at, count, set};
use net_graph::{Edge, NetGraph};
use std::alloc::{AllocError, Global};

/// A step to a face.
#[derive(Clone, Copy)]
pub struct Step {
    /// The face that it leads to.
    pub face: u32,
    /// The arc that enters the cut where the curve takes this step.
    pub arc: u32,
    /// The vertex towards which the tree leaves the cut on this step, `NONE` where it doesn't.
    pub outside: u32,
}

/// Along or against a curve, which has the cut on its left hand.
#[derive(Clone, Copy)]
pub enum Direction {
    Along,
    Against,
}

/// All steps of one direction, by the faces that they come from. On none does the tree enter.
#[derive(Drop)]
pub struct Steps {
    steps: Vec<Step>,
    // The first step out of each face; behind the last face the number of steps.
    first: Vec<u32>,
    // The face from which a step across each arc comes.
    sources: Vec<u32>,
}

impl Steps {
    /// The steps of one direction in a graph with these faces and with a tree. An `Err` is want of memory.
    pub fn of(
        alloc: Global,
        graph: &NetGraph,
        faces: &Faces,
        tree: &Tree,
        direction: Direction,
    ) -> Result<Steps, AllocError> {
        let mut sourced = Vec::new(alloc);
        let mut arc = 0u32;
        for edge in graph.edges() {
            push_both(&mut sourced, faces, tree, *edge, arc, direction)?;
            arc = arc.wrapping_add(2);
        }
        sourced.sort_by_key(|step| step.0)?;
        let mut all = Steps {
            steps: Vec::with_capacity(alloc, sourced.len())?,
            first: vec![in alloc; 0; (faces.count() as usize).saturating_add(1)]?,
            sources: vec![in alloc; NONE; arc as usize]?,
        };
        for (source, step) in &sourced {
            all.steps.push(*step)?;
            add_at(&mut all.first, source.wrapping_add(1), 1);
            set(&mut all.sources, step.arc, *source);
        }
        for face in 0..faces.count() {
            let before = at(&all.first, face, 0);
            add_at(&mut all.first, face.wrapping_add(1), before);
        }
        Ok(all)
    }

    /// How many faces there are.
    pub fn faces(&self) -> u32 {
        count(&self.first).saturating_sub(1)
    }

    /// The face from which a step across an arc comes, `NONE` where there is none.
    pub fn source(&self, arc: u32) -> u32 {
        at(&self.sources, arc, NONE)
    }

    /// The steps out of a face.
    #[inline]
    pub fn out_of(&self, face: u32) -> &[Step] {
        let first = at(&self.first, face, 0) as usize;
        let end = at(&self.first, face.wrapping_add(1), 0) as usize;
        match self.steps.get(first..end) {
            Some(steps) => steps,
            None => &[],
        }
    }
}

// Appends the steps across both arcs of an edge, of which `arc` is the first, each behind the face from which it comes.
// An `Err` is want of memory.
fn push_both(
    sourced: &mut Vec<(u32, Step)>,
    faces: &Faces,
    tree: &Tree,
    edge: Edge,
    arc: u32,
    direction: Direction,
) -> Result<(), AllocError> {
    let sides = faces.beside(arc);
    if sides.left >= faces.count() || sides.right >= faces.count() {
        return Ok(());
    }
    let (from, face) = match direction {
        Direction::Along => (sides.left, sides.right),
        Direction::Against => (sides.right, sides.left),
    };
    let back = arc.wrapping_add(1);
    let enters = tree.group(arc) != NONE;
    let enters_back = tree.group(back) != NONE;
    if !enters {
        let outside = if enters_back { edge.a } else { NONE };
        sourced.push((from, Step { face, arc, outside }))?;
    }
    if !enters_back {
        let outside = if enters { edge.b } else { NONE };
        let step = Step {
            face: from,
            arc: back,
            outside,
        };
        sourced.push((face, step))?;
    }
    Ok(())
}

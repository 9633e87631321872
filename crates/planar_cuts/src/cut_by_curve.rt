//! Cheapest cuts as shortest closed curves in the dual of a graph that is drawn in the plane (after Reif 1983),
//! searched from both sides of the group's arc (after Pohl 1971) with buckets for queues (Dial 1969).

use crate::faces::{Faces, Sides};
use crate::front::{Front, Meeting, Search};
use crate::steps::{Direction, Steps};
use cut_groups::{BLOCKED, CutFinder, NONE, Tree, Wanted, at};
use net_graph::NetGraph;
use std::alloc::{AllocError, Global};

/// Finds cheapest cuts in a graph that is drawn in the plane.
#[derive(Drop)]
pub struct PlanarCuts {
    // The faces to the left and to the right of each group's arc.
    sides: Vec<Sides>,
    // The end on the right of the group's arc, and that on the left, which goes against the curve.
    ahead: Front,
    back: Front,
    // How many searches there were, and how many arcs they looked at.
    searches: u32,
    looks: u64,
}

const NO_SIDES: Sides = Sides {
    left: NONE,
    right: NONE,
};

impl PlanarCuts {
    /// What finds cuts in a graph with a tree, by the faces of a drawing. An `Err` is want of memory.
    pub fn new(
        alloc: Global,
        graph: &NetGraph,
        tree: &Tree,
        faces: &Faces,
    ) -> Result<PlanarCuts, AllocError> {
        let mut sides = Vec::new(alloc);
        for group in 0..tree.groups() {
            sides.push(faces.beside(tree.arc(group)))?;
        }
        let along = Steps::of(alloc, graph, faces, tree, Direction::Along)?;
        let against = Steps::of(alloc, graph, faces, tree, Direction::Against)?;
        Ok(PlanarCuts {
            sides,
            ahead: Front::new(alloc, along)?,
            back: Front::new(alloc, against)?,
            searches: 0,
            looks: 0,
        })
    }

    // Goes on from both ends to the cheapest curve. An `Err` is want of memory.
    fn meet(&mut self, search: Search<'_>, meeting: &mut Meeting) -> Result<(), AllocError> {
        let mut ahead_low = self.ahead.low();
        let mut back_low = self.back.low();
        for _ in 0..u32::MAX {
            let (Some(ahead), Some(back)) = (ahead_low, back_low) else {
                break;
            };
            if ahead.wrapping_add(back) >= meeting.bound {
                break;
            }
            if self.ahead.work <= self.back.work {
                self.ahead.go_on(search, &self.back, back, meeting)?;
                ahead_low = self.ahead.low();
            } else {
                self.back.go_on(search, &self.ahead, ahead, meeting)?;
                back_low = self.back.low();
            }
        }
        Ok(())
    }
}

impl CutFinder for PlanarCuts {
    fn cheapest(
        &mut self,
        tree: &Tree,
        prices: &[i64],
        wanted: Wanted,
        entered: &mut Vec<u32>,
    ) -> Result<Option<i64>, AllocError> {
        self.searches = self.searches.wrapping_add(1);
        let limit = wanted.limit.min(BLOCKED);
        let sides = at(&self.sides, wanted.group, NO_SIDES);
        self.ahead.begin(sides.right, self.searches, limit)?;
        self.back.begin(sides.left, self.searches, limit)?;
        let search = Search {
            tree,
            prices,
            head: tree.head(wanted.group),
            terminal: wanted.terminal,
            number: self.searches,
        };
        let mut meeting = Meeting::at_first(sides.left, sides.right, limit);
        self.meet(search, &mut meeting)?;
        self.looks = self
            .looks
            .wrapping_add(self.ahead.work)
            .wrapping_add(self.back.work);
        entered.clear();
        if meeting.face == NONE {
            return Ok(None);
        }
        self.ahead.trace(meeting.face, self.searches, entered)?;
        self.back.trace(meeting.face, self.searches, entered)?;
        Ok(Some(meeting.bound))
    }

    fn largest(
        &mut self,
        _tree: &Tree,
        _prices: &[i64],
        _wanted: Wanted,
        _entered: &mut Vec<u32>,
    ) -> Result<bool, AllocError> {
        Ok(false)
    }

    fn looks(&self) -> u64 {
        self.looks
    }
}

//! The three parts that an exchange changes.

use crate::groups::Groups;
use crate::loads::Loads;
use crate::scale::Scale;
use crate::settings::Settings;
use cut_groups::Tree;
use cut_pool::Pool;
use net_graph::NetGraph;
use std::alloc::{AllocError, Global};

/// The groups along a tree, the pool of their cuts, and the loads that these lay on the arcs.
#[derive(Drop)]
pub struct State {
    /// The groups.
    pub groups: Groups,
    /// Their cuts.
    pub pool: Pool,
    /// The loads of the arcs.
    pub loads: Loads,
}

impl State {
    /// The empty pool along a tree. An `Err` is want of memory.
    pub fn along(
        alloc: Global,
        graph: &NetGraph,
        tree: Tree,
        scale: Scale,
        settings: Settings,
    ) -> Result<State, AllocError> {
        let pool = Pool::empty(alloc, tree.groups())?;
        let loads = Loads::none(alloc, graph, &tree, scale, settings)?;
        let groups = Groups::along(alloc, tree, &loads)?;
        Ok(State {
            groups,
            pool,
            loads,
        })
    }
}

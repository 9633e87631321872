//! Cuts that are taken over from another packing.

use crate::state::State;
use cut_groups::NONE;
use cut_pool::{PARTS, find_entered};
use net_graph::{NetGraph, Packing};
use std::alloc::{AllocError, Global};

impl State {
    /// Takes over the cuts of a packing that the tree enters once, each with its weight in some unit, as far as its
    /// group lacks weight. An `Err` is want of memory.
    pub fn take_over(
        &mut self,
        alloc: Global,
        graph: &NetGraph,
        unit: u64,
        packing: &Packing,
    ) -> Result<(), AllocError> {
        let mut entered = Vec::new(alloc);
        for cut in packing.cuts() {
            let group = find_entered(graph, self.groups.tree(), &cut.members, &mut entered)?;
            if group != NONE {
                let units = cut.weight.checked_div(unit).unwrap_or(0);
                self.take_cut(group, &entered, units)?;
            }
        }
        Ok(())
    }

    // Gives a cut a weight in units, as far as its group lacks weight. An `Err` is want of memory.
    fn take_cut(&mut self, group: u32, entered: &[u32], units: u64) -> Result<(), AllocError> {
        let weight = i64::try_from(units).unwrap_or(0).saturating_mul(PARTS);
        let taken = weight.min(self.groups.lacking(group));
        if taken > 0 {
            let cut = self.pool.offer(group, entered)?.cut();
            self.loads.give(&mut self.pool, cut, taken);
            self.groups.take(group, taken);
        }
        Ok(())
    }
}

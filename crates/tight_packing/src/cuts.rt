//! New cuts of a group, asked for within the sweeps.

use crate::loads::OVER_FACTOR;
use crate::settings::Settings;
use crate::state::State;
use cut_groups::{BLOCKED, CutFinder, Wanted};
use cut_pool::{Offered, Pool, Seeker};
use std::alloc::AllocError;

impl State {
    /// Looks for cuts of a group cheaper than all that it has, for so many of its least terminals. An `Err` is want of
    /// memory.
    pub fn find_cuts<F: CutFinder>(
        &mut self,
        seeker: &mut Seeker,
        finder: &mut F,
        group: u32,
        tries: u32,
    ) -> Result<(), AllocError> {
        let Settings {
            worth,
            most_skips,
            ..
        } = *self.loads.settings();
        let failures = self.groups.failures(group);
        let rest = failures.min(most_skips).wrapping_add(1);
        if failures > 0 && seeker.random.below(rest) != 0 {
            return Ok(());
        }
        self.loads.offer_slack(&mut self.pool, group)?;
        let cheapest = self.pool.least_cost(group, self.loads.overs());
        let cheapest = cheapest.unwrap_or(BLOCKED);
        if cheapest == 0 {
            return Ok(());
        }
        let less = cheapest.checked_div(worth).unwrap_or(0);
        let wanted = cheapest.saturating_sub(less);
        let limit = wanted.saturating_mul(OVER_FACTOR).saturating_add(1);
        let found = self.find_below(seeker, finder, group, tries, limit)?;
        self.groups.note_search(group, found);
        Ok(())
    }

    // Looks for cuts of a group below a limit, and tells whether there is a new one. An `Err` is want of memory.
    fn find_below<F: CutFinder>(
        &mut self,
        seeker: &mut Seeker,
        finder: &mut F,
        group: u32,
        tries: u32,
        limit: i64,
    ) -> Result<bool, AllocError> {
        let tree = self.groups.tree();
        let terminals = tree.terminal_count(group);
        let start = seeker.random.below(terminals);
        let mut found = false;
        for turn in 0..tries.min(terminals) {
            let place = start.wrapping_add(turn).checked_rem(terminals).unwrap_or(0);
            let wanted = Wanted {
                group,
                terminal: tree.terminal(group, place),
                limit,
            };
            let prices = self.loads.prices();
            if seeker.cheapest(finder, tree, prices, wanted)?.is_some() {
                found |= offer_found(&mut self.pool, group, seeker)?;
                if seeker.largest(finder, tree, prices, wanted)? {
                    found |= offer_found(&mut self.pool, group, seeker)?;
                }
            }
        }
        Ok(found)
    }
}

// Offers a pool the cut of a group that was found last, and tells whether it is new. An `Err` is want of memory.
fn offer_found(pool: &mut Pool, group: u32, seeker: &Seeker) -> Result<bool, AllocError> {
    let offered = pool.offer(group, seeker.found())?;
    Ok(matches!(offered, Offered::Taken(_)))
}

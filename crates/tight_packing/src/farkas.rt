//! The test that no packing of the wanted value exists, with fractional weights either (after
//! Farkas 1902).

use crate::loads::Loads;
use crate::state::State;
use cut_groups::{BLOCKED, CutFinder, NONE, Tree, Wanted, at};
use cut_pool::Seeker;
use std::alloc::{AllocError, Global};

/// The last test: the overloads of the arcs, and the price of a cheapest cut of each group; both empty before the first
/// one.
#[derive(Drop)]
pub struct FarkasTest {
    /// The overloads of the arcs.
    pub overs: Vec<i64>,
    /// The price of a cheapest cut of each group.
    pub cheapest: Vec<i64>,
    /// By how much the groups would pay more than the arcs could.
    pub gain: i128,
    // The prices of the arcs in the last test.
    prices: Vec<i64>,
}

impl FarkasTest {
    /// No test yet. It takes no memory.
    pub fn none(alloc: Global) -> FarkasTest {
        FarkasTest {
            overs: Vec::new(alloc),
            cheapest: Vec::new(alloc),
            gain: 0,
            prices: Vec::new(alloc),
        }
    }

    /// Whether the overloads, as prices, show that no packing has the wanted value:
    /// it would pay at least the length of each group's arc times its cheapest cut, and at most the
    /// capacity of each arc times its price. An `Err` is want of memory.
    pub fn is_impossible<F: CutFinder>(
        &mut self,
        state: &mut State,
        seeker: &mut Seeker,
        finder: &mut F,
    ) -> Result<bool, AllocError> {
        let have = self.take_prices(state.groups.tree(), &state.loads)?;
        let mut need = 0i128;
        self.cheapest.clear();
        for group in 0..state.groups.tree().groups() {
            let least = self.cheapest_of(state, seeker, finder, group)?;
            let length = state.loads.length(state.groups.tree().arc(group));
            need = need.wrapping_add(product(least, length));
            self.cheapest.push(least)?;
        }
        self.gain = need.wrapping_sub(have);
        Ok(need > have)
    }

    // Takes the overloads as prices, and tells what all arcs could pay. An `Err` is want of memory.
    fn take_prices(&mut self, tree: &Tree, loads: &Loads) -> Result<i128, AllocError> {
        let mut have = 0i128;
        self.prices.clear();
        self.overs.clear();
        for arc in 0..loads.len() {
            let over = i64::from(at(loads.overs(), arc, 0));
            have = have.wrapping_add(product(over, loads.length(arc)));
            let price = if tree.group(arc) == NONE {
                over
            } else {
                BLOCKED
            };
            self.prices.push(price)?;
            self.overs.push(over)?;
        }
        Ok(have)
    }

    // The least price of a cut of a group. An `Err` is want of memory.
    fn cheapest_of<F: CutFinder>(
        &mut self,
        state: &mut State,
        seeker: &mut Seeker,
        finder: &mut F,
        group: u32,
    ) -> Result<i64, AllocError> {
        state.loads.offer_slack(&mut state.pool, group)?;
        let known = state.pool.least_cost(group, state.loads.overs());
        let tree = state.groups.tree();
        let mut least = known.unwrap_or(0);
        for place in 0..tree.terminal_count(group) {
            if least <= 0 {
                break;
            }
            let wanted = Wanted {
                group,
                terminal: tree.terminal(group, place),
                limit: least,
            };
            if let Some(price) = seeker.cheapest(finder, tree, &self.prices, wanted)? {
                least = price;
            }
        }
        Ok(least)
    }
}

// A product that can't wrap.
fn product(a: i64, b: i64) -> i128 {
    i128::from(a).wrapping_mul(i128::from(b))
}

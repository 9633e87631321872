//! New cuts for the unit search, in prices that shun full arcs.

use crate::pool::{Offered, Pool};
use crate::seeker::Seeker;
use crate::units::Units;
use cut_groups::{BLOCKED, CutFinder, NONE, Random, Tree, Wanted, set};
use std::alloc::{AllocError, Global};

// New cuts asked for at a time.
const NEW_CUTS: u8 = 6;

// The prices of arcs with no room, with room for one unit, for up to three, and for more.
const FULL: i64 = 1000;

const NEARLY_FULL: i64 = 6;

const NARROW: i64 = 2;

const WIDE: i64 = 1;

// The price of the arc that is to be relieved, and the limit of a cut's price.
const SHUNNED: i64 = 1_000_000;

const LIMIT: i64 = 4095;

/// Work space to look for new cuts in.
#[derive(Drop)]
pub struct NewCuts {
    // The prices of the arcs.
    prices: Vec<i64>,
}

impl NewCuts {
    /// The work space. It takes no memory.
    pub fn none(alloc: Global) -> NewCuts {
        NewCuts {
            prices: Vec::new(alloc),
        }
    }

    /// Looks for new cuts in place of those that a drawn overloaded arc enters. An `Err` is want of
    /// memory.
    pub fn look<F: CutFinder>(
        &mut self,
        units: &mut Units,
        tree: &Tree,
        pool: &mut Pool,
        seeker: &mut Seeker,
        finder: &mut F,
    ) -> Result<(), AllocError> {
        let arc = units.draw_overloaded(&mut seeker.random);
        self.set_prices(units, tree, &mut seeker.random, arc)?;
        for _ in 0..NEW_CUTS {
            let user = units.draw_user(&mut seeker.random, arc);
            if user != NONE {
                units.set_giver(pool, user);
                self.price_entered(units, pool.entered(user), arc);
                let group = pool.cut(user).group;
                if self.is_found(tree, seeker, finder, group)? {
                    take_in(units, pool, group, seeker.found())?;
                }
                units.clear_giver(pool);
                self.price_entered(units, pool.entered(user), arc);
            }
        }
        Ok(())
    }

    // Whether a cut of a group with one of its least terminals, a drawn one, is found below the limit. An `Err` is want
    // of memory.
    fn is_found<F: CutFinder>(
        &mut self,
        tree: &Tree,
        seeker: &mut Seeker,
        finder: &mut F,
        group: u32,
    ) -> Result<bool, AllocError> {
        let place = seeker.random.below(tree.terminal_count(group));
        let wanted = Wanted {
            group,
            terminal: tree.terminal(group, place),
            limit: LIMIT,
        };
        let price = seeker.cheapest(finder, tree, &self.prices, wanted)?;
        Ok(price.is_some())
    }

    // Prices by the room that there is, with a draw for each arc that varies the cuts. An `Err` is want of memory.
    fn set_prices(
        &mut self,
        units: &Units,
        tree: &Tree,
        random: &mut Random,
        shunned: u32,
    ) -> Result<(), AllocError> {
        self.prices.clear();
        for arc in 0..units.arcs() {
            let price = if tree.group(arc) != NONE {
                BLOCKED
            } else if arc == shunned {
                SHUNNED
            } else {
                price_of_room(units.room(arc)).wrapping_add(i64::from(random.below(2)))
            };
            self.prices.push(price)?;
        }
        Ok(())
    }

    // Prices some arcs off the tree anew by the room that there is when the giver has given a unit away.
    fn price_entered(&mut self, units: &Units, arcs: &[u32], shunned: u32) {
        for arc in arcs {
            if *arc != shunned {
                set(&mut self.prices, *arc, price_of_room(units.room(*arc)));
            }
        }
    }
}

// Takes a cut of a group into the pool and the units, if it isn't there. An `Err` is want of memory.
fn take_in(units: &mut Units, pool: &mut Pool, group: u32, arcs: &[u32]) -> Result<(), AllocError> {
    if let Offered::Taken(cut) = pool.offer(group, arcs)? {
        units.add_cut(pool, cut)?;
    }
    Ok(())
}

// The price of an arc by its room.
fn price_of_room(room: i64) -> i64 {
    match room {
        1 => NEARLY_FULL,
        2 | 3 => NARROW,
        _ if room <= 0 => FULL,
        _ => WIDE,
    }
}

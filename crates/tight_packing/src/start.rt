//! The first weights: in turns each group gives a share of what it lacks to its cheapest cut.

use crate::state::State;
use cut_groups::{BLOCKED, CutFinder, NONE, Wanted};
use cut_pool::{Pool, Seeker};
use std::alloc::AllocError;

// Turns, and how many groups are served between two draws of the charges.
const TURNS: i64 = 10;

const GROUPS_TO_CHARGES: u32 = 16;

// A search for a first cut begins with this limit and takes four times as much where it finds none.
const FIRST_LIMIT: i64 = 1 << 12;

const MOST_DOUBLINGS: u32 = 25;

// A cheapest cut so far, `NONE` where there is none yet, and its price.
#[derive(Clone, Copy)]
struct Cheapest {
    cut: u32,
    price: i64,
}

impl State {
    /// Gives each group what it lacks. An `Err` is want of memory.
    pub fn start<F: CutFinder>(
        &mut self,
        seeker: &mut Seeker,
        finder: &mut F,
    ) -> Result<(), AllocError> {
        for turn in 1..TURNS + 1 {
            self.groups.shuffle(&mut seeker.random);
            let mut served = 0u32;
            for visit in 0..self.groups.tree().groups() {
                let group = self.groups.visited(visit);
                if self.groups.lacking(group) <= 0 {
                    continue;
                }
                if served % GROUPS_TO_CHARGES == 0 {
                    self.loads.draw_charges(&mut seeker.random);
                }
                served = served.wrapping_add(1);
                self.give_share(seeker, finder, group, turn)?;
            }
        }
        Ok(())
    }

    // Gives the cheapest cut of a group what it shall have more after a turn than before. An `Err` is want of memory.
    fn give_share<F: CutFinder>(
        &mut self,
        seeker: &mut Seeker,
        finder: &mut F,
        group: u32,
        turn: i64,
    ) -> Result<(), AllocError> {
        let lacking = self.groups.lacking(group);
        let share = share_of(lacking, turn).wrapping_sub(share_of(lacking, turn.wrapping_sub(1)));
        if share <= 0 {
            return Ok(());
        }
        self.loads.offer_slack(&mut self.pool, group)?;
        let mut cheapest = cheapest_known(&self.pool, self.loads.prices(), group);
        for place in 0..self.groups.tree().terminal_count(group) {
            self.look_below(seeker, finder, group, place, &mut cheapest)?;
        }
        self.loads.give(&mut self.pool, cheapest.cut, share);
        Ok(())
    }

    // Looks for a cheaper cut of a group with one of its least terminals, with growing limits. An `Err` is want of
    // memory.
    fn look_below<F: CutFinder>(
        &mut self,
        seeker: &mut Seeker,
        finder: &mut F,
        group: u32,
        place: u32,
        cheapest: &mut Cheapest,
    ) -> Result<(), AllocError> {
        let tree = self.groups.tree();
        let mut limit = FIRST_LIMIT;
        for _ in 0..MOST_DOUBLINGS {
            let wanted = Wanted {
                group,
                terminal: tree.terminal(group, place),
                limit: limit.min(cheapest.price),
            };
            if let Some(price) = seeker.cheapest(finder, tree, self.loads.prices(), wanted)? {
                let cut = self.pool.offer(group, seeker.found())?.cut();
                *cheapest = Cheapest { cut, price };
                break;
            }
            if limit >= cheapest.price {
                break;
            }
            limit = limit.saturating_mul(4);
        }
        Ok(())
    }
}

// The cheapest cut that a group has.
fn cheapest_known(pool: &Pool, prices: &[i64], group: u32) -> Cheapest {
    let mut cheapest = Cheapest {
        cut: NONE,
        price: BLOCKED,
    };
    let mut cut = pool.first(group);
    for _ in 0..pool.len() {
        if cut == NONE {
            break;
        }
        let price = pool.price(cut, prices);
        if price < cheapest.price {
            cheapest = Cheapest { cut, price };
        }
        cut = pool.next(cut);
    }
    cheapest
}

// What a group that lacked some weight has got of it after so many turns.
fn share_of(lacking: i64, turns: i64) -> i64 {
    let share = i128::from(lacking).wrapping_mul(i128::from(turns)) / i128::from(TURNS);
    i64::try_from(share).unwrap_or(lacking)
}

//! The best move of a unit off an overloaded arc.

use crate::pool::Pool;
use crate::units::Units;
use cut_groups::{NONE, Random};
use std::alloc::AllocError;

// A cut that gave a unit away rests for so many steps, and a drawn number below the spread.
const LEAST_REST: u32 = 2;

const REST_SPREAD: u32 = 8;

// The best move of a unit so far, with the number of those as good; `NONE` where there is none
// yet.
#[derive(Clone, Copy)]
struct Pick {
    change: i64,
    from: u32,
    to: u32,
    ties: u32,
    pairs: u32,
}

impl Units {
    /// Moves one unit off a drawn overloaded arc, the way that changes the overload least; ties are
    /// broken by a draw. It tells how many pairs of cuts it looked at. An `Err` is want of memory.
    pub fn move_one(
        &mut self,
        pool: &Pool,
        random: &mut Random,
        step: u32,
    ) -> Result<u32, AllocError> {
        let arc = self.draw_overloaded(random);
        let pick = self.best_move(pool, random, arc, step);
        if pick.from != NONE {
            let rest = LEAST_REST.wrapping_add(random.below(REST_SPREAD));
            self.shift(pool, pick.from, pick.to)?;
            self.rest(pick.from, step.wrapping_add(rest));
        }
        Ok(pick.pairs)
    }

    // The best move of a unit off an arc. No cut gives a unit behind it.
    fn best_move(&mut self, pool: &Pool, random: &mut Random, arc: u32, step: u32) -> Pick {
        let mut pick = Pick {
            change: i64::MAX,
            from: NONE,
            to: NONE,
            ties: 0,
            pairs: 0,
        };
        self.note_users(arc, step);
        let mut place = self.users().first(arc);
        for _ in 0..self.users().len() {
            let Some(user) = self.users().get(place) else {
                break;
            };
            if self.weight(user.cut) > 0 && !self.rests(user.cut, step) {
                self.offer_moves(pool, random, &mut pick, user.cut, step);
            }
            place = user.next;
        }
        self.clear_giver(pool);
        pick
    }

    // Notes the cuts that an arc enters which is to be relieved in a step.
    fn note_users(&mut self, arc: u32, step: u32) {
        let mut place = self.users().first(arc);
        for _ in 0..self.users().len() {
            let Some(user) = self.users().get(place) else {
                break;
            };
            self.note_relieving(user.cut, step);
            place = user.next;
        }
    }

    // Looks at the moves from a cut to others of its group that the arc doesn't enter which is to be relieved.
    fn offer_moves(
        &mut self,
        pool: &Pool,
        random: &mut Random,
        pick: &mut Pick,
        from: u32,
        step: u32,
    ) {
        let gain = self.set_giver(pool, from);
        let mut to = pool.first(pool.cut(from).group);
        for _ in 0..pool.len() {
            if to == NONE {
                break;
            }
            if !self.is_relieving(to, step) && !self.rests(to, step) {
                // A move that changes more than the best one isn't looked at to the end.
                let most = pick.change.saturating_add(gain);
                let loss = self.loss(pool, to, most);
                pick.offer(loss.wrapping_sub(gain), from, to, random);
            }
            to = pool.next(to);
        }
    }
}

impl Pick {
    // Takes a move into account.
    fn offer(&mut self, change: i64, from: u32, to: u32, random: &mut Random) {
        self.pairs = self.pairs.saturating_add(1);
        if change < self.change {
            self.ties = 0;
        } else if change == self.change {
            self.ties = self.ties.wrapping_add(1);
            if random.below(self.ties.wrapping_add(1)) != 0 {
                return;
            }
        } else {
            return;
        }
        self.change = change;
        self.from = from;
        self.to = to;
    }
}

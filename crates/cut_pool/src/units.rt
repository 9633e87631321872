//! Weights in whole units, and the overload of the arcs.

use crate::pool::{PARTS, Pool};
use crate::users::Users;
use cut_groups::{NONE, Random, at, count, set};
use std::alloc::{AllocError, Global};

/// Whole units on the cuts of a pool.
#[derive(Drop)]
pub struct Units {
    // The overload of all arcs.
    total: i64,
    // The cuts that each arc enters.
    users: Users,
    // The arcs whose load is above their length.
    overloaded: Vec<u32>,
    weights: Vec<i64>,
    // Of each cut the step until which it takes and gives nothing.
    resting: Vec<u32>,
    // Of each arc its load less its length, and where it stands among the overloaded ones, or
    // `NONE`.
    excess: Vec<i64>,
    places: Vec<u32>,
    // The weights of the least overload met.
    best: Vec<i64>,
    // Of each cut the last step in which an arc was to be relieved that enters it.
    relieving: Vec<u32>,
    // The cut that gives a unit, which its arcs are without, or `NONE`.
    giver: u32,
    // How many units were moved so far.
    moves: u32,
}

impl Units {
    /// No cut, and no arc. It takes no memory.
    pub fn none(alloc: Global) -> Units {
        Units {
            total: 0,
            users: Users::new(alloc),
            overloaded: Vec::new(alloc),
            weights: Vec::new(alloc),
            resting: Vec::new(alloc),
            excess: Vec::new(alloc),
            places: Vec::new(alloc),
            best: Vec::new(alloc),
            relieving: Vec::new(alloc),
            giver: NONE,
            moves: 0,
        }
    }

    /// Takes the weights of a pool, which are whole units, among arcs of these lengths in units. An `Err` is want of
    /// memory.
    pub fn begin(&mut self, lengths: &[i64], pool: &Pool) -> Result<(), AllocError> {
        self.clear();
        for length in lengths {
            self.excess.push(length.wrapping_neg())?;
            self.places.push(NONE)?;
        }
        self.users.clear(count(&self.excess))?;
        for cut in 0..pool.len() {
            let weight = pool.cut(cut).weight / PARTS;
            self.add_cut(pool, cut)?;
            self.give(pool, cut, weight)?;
        }
        self.keep()
    }

    // Drops all cuts and arcs.
    fn clear(&mut self) {
        self.total = 0;
        self.overloaded.clear();
        self.weights.clear();
        self.resting.clear();
        self.relieving.clear();
        self.giver = NONE;
        self.excess.clear();
        self.places.clear();
    }

    /// The overload of all arcs.
    #[inline]
    pub fn total(&self) -> i64 {
        self.total
    }

    /// How many arcs there are.
    pub fn arcs(&self) -> u32 {
        count(&self.excess)
    }

    /// How many units were moved so far.
    pub fn moves(&self) -> u32 {
        self.moves
    }

    /// The cuts that each arc enters.
    #[inline]
    pub fn users(&self) -> &Users {
        &self.users
    }

    /// A drawn overloaded arc; `NONE` where there is none.
    pub fn draw_overloaded(&self, random: &mut Random) -> u32 {
        let drawn = random.below(count(&self.overloaded));
        at(&self.overloaded, drawn, NONE)
    }

    /// A drawn cut with weight that an arc enters, or `NONE`.
    pub fn draw_user(&self, random: &mut Random, arc: u32) -> u32 {
        let mut drawn = NONE;
        let mut seen = 0u32;
        let mut place = self.users.first(arc);
        for _ in 0..self.users.len() {
            let Some(user) = self.users.get(place) else {
                break;
            };
            if self.weight(user.cut) > 0 {
                seen = seen.wrapping_add(1);
                if random.below(seen) == 0 {
                    drawn = user.cut;
                }
            }
            place = user.next;
        }
        drawn
    }

    /// Takes in the next cut of a pool, with no unit. An `Err` is want of memory.
    pub fn add_cut(&mut self, pool: &Pool, cut: u32) -> Result<(), AllocError> {
        self.weights.push(0)?;
        self.resting.push(0)?;
        self.relieving.push(0)?;
        self.users.add(cut, pool.entered(cut))
    }

    /// Moves a unit from one cut to another, while no cut gives one. An `Err` is want of memory.
    pub fn shift(&mut self, pool: &Pool, from: u32, to: u32) -> Result<(), AllocError> {
        self.moves = self.moves.saturating_add(1);
        self.give(pool, from, -1)?;
        self.give(pool, to, 1)
    }

    // Adds to the weight of a cut. An `Err` is want of memory.
    fn give(&mut self, pool: &Pool, cut: u32, amount: i64) -> Result<(), AllocError> {
        let weight = at(&self.weights, cut, 0).wrapping_add(amount);
        set(&mut self.weights, cut, weight);
        if amount != 0 {
            for arc in pool.entered(cut) {
                self.load(*arc, amount)?;
            }
        }
        Ok(())
    }

    /// The weight of a cut.
    #[inline]
    pub fn weight(&self, cut: u32) -> i64 {
        at(&self.weights, cut, 0)
    }

    /// Whether a cut rests.
    #[inline]
    pub fn rests(&self, cut: u32, step: u32) -> bool {
        at(&self.resting, cut, 0) > step
    }

    /// Lets a cut rest until a step.
    pub fn rest(&mut self, cut: u32, step: u32) {
        set(&mut self.resting, cut, step);
    }

    // The load of an arc less its length.
    #[inline]
    fn excess(&self, arc: u32) -> i64 {
        at(&self.excess, arc, 0)
    }

    /// The room of an arc, once the giver has lost a unit.
    #[inline]
    pub fn room(&self, arc: u32) -> i64 {
        self.excess(arc).wrapping_neg()
    }

    /// Notes that an arc which enters a cut is to be relieved in a step.
    #[inline]
    pub fn note_relieving(&mut self, cut: u32, step: u32) {
        set(&mut self.relieving, cut, step);
    }

    /// Whether the arc that is to be relieved in a step enters a cut, as was noted.
    #[inline]
    pub fn is_relieving(&self, cut: u32, step: u32) -> bool {
        at(&self.relieving, cut, 0) == step
    }

    /// Keeps the weights as the best ones. An `Err` is want of memory.
    pub fn keep(&mut self) -> Result<(), AllocError> {
        self.best.clear();
        self.best.extend_from_slice(&self.weights)
    }

    /// The best weights, by cuts.
    pub fn best(&self) -> &[i64] {
        self.best.as_slice()
    }

    /// Lets a cut give a unit, in place of another one, and tells how much of the overload that takes off.
    pub fn set_giver(&mut self, pool: &Pool, cut: u32) -> i64 {
        self.clear_giver(pool);
        self.giver = cut;
        let mut gain = 0i64;
        for arc in pool.entered(cut) {
            let excess = self.excess(*arc);
            gain = gain.wrapping_add(i64::from(excess > 0));
            set(&mut self.excess, *arc, excess.wrapping_sub(1));
        }
        gain
    }

    /// Lets no cut give a unit.
    pub fn clear_giver(&mut self, pool: &Pool) {
        for arc in pool.entered(self.giver) {
            let excess = self.excess(*arc).wrapping_add(1);
            set(&mut self.excess, *arc, excess);
        }
        self.giver = NONE;
    }

    /// How much a unit more on a cut adds to the overload, once the giver has lost it, or some number above `most`
    /// where that is more.
    #[inline]
    pub fn loss(&self, pool: &Pool, cut: u32, most: i64) -> i64 {
        let (eights, rest) = pool.entered(cut).as_chunks::<8>();
        let mut loss = 0i64;
        for eight in eights {
            loss = loss.wrapping_add(self.full_of(eight));
            if loss > most {
                return loss;
            }
        }
        loss.wrapping_add(self.full_of(rest))
    }

    // How many of some arcs have no room.
    #[inline]
    fn full_of(&self, arcs: &[u32]) -> i64 {
        let mut full = 0i64;
        for arc in arcs {
            full = full.wrapping_add(i64::from(self.excess(*arc) >= 0));
        }
        full
    }

    // Adds to the load of an arc. An `Err` is want of memory.
    fn load(&mut self, arc: u32, amount: i64) -> Result<(), AllocError> {
        let before = self.excess(arc);
        let after = before.wrapping_add(amount);
        set(&mut self.excess, arc, after);
        let change = after.max(0).wrapping_sub(before.max(0));
        self.total = self.total.wrapping_add(change);
        if before <= 0 && after > 0 {
            set(&mut self.places, arc, count(&self.overloaded));
            self.overloaded.push(arc)?;
        } else if before > 0 && after <= 0 {
            self.leave(arc);
        }
        Ok(())
    }

    // Takes an arc from among the overloaded ones.
    fn leave(&mut self, arc: u32) {
        let place = at(&self.places, arc, NONE);
        if let Some(last) = self.overloaded.pop() {
            set(&mut self.overloaded, place, last);
            set(&mut self.places, last, place);
        }
        set(&mut self.places, arc, NONE);
    }
}

//! The pool kept small: cuts without weight that were not cheap for long are dropped.

use crate::pool::Pool;
use cut_groups::NONE;
use std::alloc::{AllocError, Global};
use std::mem;

// Cuts of weight 0 kept in a group.
const SPARE: usize = 12;

/// Work space to tidy a pool in.
#[derive(Drop)]
pub struct Tidier {
    spare: Pool,
    // The ages and numbers of the cuts of weight 0 in a group.
    idle: Vec<(u32, u32)>,
}

impl Tidier {
    /// The work space for so many groups. An `Err` is want of memory.
    pub fn new(alloc: Global, groups: u32) -> Result<Tidier, AllocError> {
        Ok(Tidier {
            spare: Pool::empty(alloc, groups)?,
            idle: Vec::new(alloc),
        })
    }

    /// Ages all cuts, drops the oldest cuts of weight 0 beyond a few in each group, and numbers the
    /// others by their groups. An `Err` is want of memory.
    pub fn tidy(&mut self, pool: &mut Pool) -> Result<(), AllocError> {
        self.spare.clear();
        for group in 0..pool.groups() {
            let limit = self.age_limit(pool, group)?;
            let mut number = pool.first(group);
            for _ in 0..pool.len() {
                if number == NONE {
                    break;
                }
                let cut = pool.cut(number);
                if cut.weight != 0 || (cut.age, NONE - number) < limit {
                    self.spare.copy(pool, number)?;
                }
                number = cut.next;
            }
        }
        mem::swap(&mut self.spare, pool);
        Ok(())
    }

    // The age and the number, counted back, from which cuts of weight 0 are dropped. An `Err` is
    // want of memory.
    fn age_limit(&mut self, pool: &Pool, group: u32) -> Result<(u32, u32), AllocError> {
        self.idle.clear();
        let mut number = pool.first(group);
        for _ in 0..pool.len() {
            if number == NONE {
                break;
            }
            let cut = pool.cut(number);
            if cut.weight == 0 {
                self.idle.push((cut.age, NONE - number))?;
            }
            number = cut.next;
        }
        self.idle.sort()?;
        Ok(match self.idle.get(SPARE) {
            Some(limit) => *limit,
            None => (NONE, NONE),
        })
    }
}

//! What is due when: the fine phase, the rounding, the search in units, the multipliers and the tests.

use crate::settings::Settings;
use cut_pool::PARTS;

// A round that lowers the potential by less than this many percent stagnates.
const STALL_PERCENT: i128 = 3;

// The multipliers begin after so many rounds, or when the potential stagnates.
const FIRST_ROUNDS: u32 = 4;

// Rounds with multipliers after which the groups are rounded, however great the overload.
const FINE_ROUNDS: u32 = 100;

// The overload in units at which the rounding begins shrinks by this with each return to the fine phase, to no less
// than the least.
const SHRINKING_BY: i64 = 2;

const SHRINKING_OF: i64 = 5;

// Terminals tried for new cuts of a group, and when the potential stagnates or groups are rounded.
const TRIES: u32 = 3;

const MORE_TRIES: u32 = 6;

// Rounds between two tests that no packing exists: of the fine phase, and else.
const TEST_GAP: u32 = 5;

const LATE_TEST_GAP: u32 = 10;

// Of so many rounds one ends with the pool tidied.
const TIDY_GAP: u32 = 3;

// A unit search is tried at this overload in units, or after so many whole rounds; so many rounds
// are between two.
const UNIT_EXCESS: i64 = 20;

const UNIT_WAIT: u32 = 8;

const UNIT_GAP: u32 = 4;

// Whether all weights move in parts of a unit, or groups become whole.
#[derive(Clone, Copy)]
enum Phase {
    Fine,
    Rounding,
}

/// Where the rounds stand.
#[derive(Clone, Copy)]
pub struct Phases {
    settings: Settings,
    // Rounds that are over.
    round: u32,
    phase: Phase,
    // The round in which the phase began, and how often the fine phase was come back to.
    phase_since: u32,
    returns: u32,
    // The overload in units at which the rounding begins.
    fine_excess: i64,
    // The potential after the last round.
    last_potential: Option<i128>,
    is_stagnant: bool,
    // The round in which the multipliers began, or the fine phase after a rounding.
    multiplying_since: Option<u32>,
    // The round of the last search in units.
    last_unit_search: Option<u32>,
}

impl Phases {
    /// Before the first round, for so many terminals.
    pub fn new(terminals: usize, settings: Settings) -> Phases {
        Phases {
            settings,
            round: 0,
            phase: Phase::Fine,
            phase_since: 0,
            returns: 0,
            fine_excess: first_fine_excess(terminals).min(settings.most_excess),
            last_potential: None,
            is_stagnant: false,
            multiplying_since: None,
            last_unit_search: None,
        }
    }

    /// Whether groups become whole, or are.
    pub fn is_rounding(&self) -> bool {
        matches!(self.phase, Phase::Rounding)
    }

    // How many rounds of the phase are over.
    fn stay(&self) -> u32 {
        self.round.wrapping_sub(self.phase_since)
    }

    /// How many terminals are tried for new cuts of a group.
    pub fn tries(&self) -> u32 {
        if self.is_stagnant || self.is_rounding() {
            MORE_TRIES
        } else {
            TRIES
        }
    }

    /// Notes whether the potential stagnates.
    pub fn note_potential(&mut self, potential: i128) {
        self.is_stagnant = match self.last_potential {
            Some(last) => {
                let gain = last.wrapping_sub(potential).wrapping_mul(100);
                gain < last.wrapping_mul(STALL_PERCENT)
            }
            None => false,
        };
        self.last_potential = Some(potential);
    }

    /// Begins the rounding when the overload in parts is small or the multipliers have worked long enough, and tells
    /// whether it does.
    pub fn begins_rounding(&mut self, excess: i64) -> bool {
        let is_long = match self.multiplying_since {
            Some(since) => self.round.wrapping_sub(since) >= FINE_ROUNDS,
            None => false,
        };
        let is_small = excess <= self.fine_excess.wrapping_mul(PARTS)
            && (self.returns == 0 || self.stay() >= self.settings.fine_rounds);
        let begins = !self.is_rounding() && (is_small || is_long);
        if begins {
            self.phase = Phase::Rounding;
            self.phase_since = self.round;
        }
        begins
    }

    /// How many of the groups are whole after this round.
    pub fn whole(&self, groups: u32) -> u32 {
        let share = groups.div_ceil(self.settings.rounding_rounds.max(1));
        share
            .saturating_mul(self.stay().saturating_add(1))
            .min(groups)
    }

    /// Whether the weights, all of which are whole, are searched for units without overload in this round, at an
    /// overload in parts; it is noted.
    pub fn searches_units(&mut self, excess: i64) -> bool {
        let wait = self.settings.rounding_rounds.saturating_add(UNIT_WAIT);
        let is_ripe = excess <= UNIT_EXCESS * PARTS || self.stay() >= wait;
        let is_past = match self.last_unit_search {
            Some(last) => self.round.wrapping_sub(last) >= UNIT_GAP,
            None => true,
        };
        let is_due = excess == 0 || (is_ripe && is_past);
        if is_due {
            self.last_unit_search = Some(self.round);
        }
        is_due
    }

    /// Goes back to the fine phase, where the rounding took long enough, and tells whether it does.
    pub fn refines(&mut self) -> bool {
        let rounding = self.settings.rounding_rounds;
        let is_due = self.stay() >= rounding.saturating_add(self.settings.whole_rounds);
        if is_due {
            self.phase = Phase::Fine;
            self.phase_since = self.round;
            self.multiplying_since = Some(self.round);
            self.returns = self.returns.saturating_add(1);
            let excess = self.fine_excess.wrapping_mul(SHRINKING_BY) / SHRINKING_OF;
            self.fine_excess = excess.max(self.settings.least_excess);
        }
        is_due
    }

    /// Whether it is time to tidy the pool.
    pub fn is_time_to_tidy(&self) -> bool {
        self.round % TIDY_GAP == TIDY_GAP - 1
    }

    /// Whether it is time to test that no packing exists.
    pub fn is_time_to_test(&self) -> bool {
        match (self.multiplying_since, self.phase) {
            (None, _) => false,
            (Some(since), Phase::Fine) => self.round.wrapping_sub(since) % TEST_GAP == TEST_GAP - 1,
            (Some(_), Phase::Rounding) => self.round % LATE_TEST_GAP == LATE_TEST_GAP - 1,
        }
    }

    /// Ends a round, and tells whether it is time to raise the multipliers.
    pub fn end_round(&mut self) -> bool {
        let is_late = self.round.saturating_add(1) >= FIRST_ROUNDS || self.is_rounding();
        if self.multiplying_since.is_none() && (self.is_stagnant || is_late) {
            self.multiplying_since = Some(self.round);
        }
        self.round = self.round.saturating_add(1);
        self.multiplying_since.is_some()
    }
}

// The overload in units at which the rounding first begins: with more terminals there are more arcs
// to repair.
fn first_fine_excess(terminals: usize) -> i64 {
    match terminals {
        0..=20 => 20,
        21..=30 => 40,
        31..=40 => 80,
        _ => 120,
    }
}

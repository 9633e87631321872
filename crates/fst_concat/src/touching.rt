//! The parts that taken trees join, by numbers, and the open trees that touch several of them.

use crate::bound::SCALE;
use concatenation::Choice;
use full_tree::{Places, Tree};
use partition_fit::{Item, Level};
use std::alloc::{AllocError, Global};

// A label that names no part yet.
const NO_PART: u8 = 255;

/// The parts, numbered by their first terminals.
#[derive(Clone, Copy)]
pub struct Parts {
    number_of: [u8; 64],
    count: u8,
}

impl Parts {
    /// The parts that labels name.
    pub fn of(labels: &[u8]) -> Parts {
        let mut parts = Parts {
            number_of: [NO_PART; 64],
            count: 0,
        };
        for label in labels {
            parts.number(*label);
        }
        parts
    }

    // Gives a label the next number, where it has none.
    fn number(&mut self, label: u8) {
        if let Some(number) = self.number_of.get_mut(usize::from(label)) {
            if *number == NO_PART {
                *number = self.count;
                self.count = self.count.saturating_add(1);
            }
        }
    }

    /// How many parts there are.
    pub fn count(&self) -> u8 {
        self.count
    }

    /// The number of the part with a label; 0 where there is none.
    pub fn of_label(&self, label: u8) -> u8 {
        match self.number_of.get(usize::from(label)) {
            Some(number) => *number,
            None => 0,
        }
    }

    /// The parts that members touch, one bit for each.
    pub fn touched_by(&self, labels: &[u8], members: &[u8]) -> u64 {
        let mut touched = 0;
        for member in members {
            if let Some(label) = labels.get(usize::from(*member)) {
                touched |= 1u64.wrapping_shl(u32::from(self.of_label(*label)));
            }
        }
        touched
    }

    /// The labels that a level of the parts gives the terminals.
    pub fn labels_of(&self, labels: &[u8], level: &Level) -> [u8; 50] {
        let mut array = [0; 50];
        for (to, label) in array.iter_mut().zip(labels) {
            if let Some(part) = level.labels.get(usize::from(self.of_label(*label))) {
                *to = *part;
            }
        }
        array
    }
}

/// The open trees that touch several parts, each with its place in the list.
#[derive(Drop)]
pub struct Touching {
    items: Vec<Item>,
    places: Vec<u32>,
}

impl Touching {
    /// Those of the open trees. An `Err` is want of memory.
    pub fn of(
        alloc: Global,
        trees: &[Tree],
        listed: &[Places],
        choices: &[Choice],
        labels: &[u8],
        parts: &Parts,
    ) -> Result<Touching, AllocError> {
        let mut touching = Touching {
            items: Vec::new(alloc),
            places: Vec::new(alloc),
        };
        let mut place: u32 = 0;
        for choice in choices {
            if *choice == Choice::Open {
                if let Some(item) = item_at(trees, listed, labels, parts, place) {
                    touching.items.push(item)?;
                    touching.places.push(place)?;
                }
            }
            place = place.wrapping_add(1);
        }
        Ok(touching)
    }

    /// The trees as items.
    pub fn items(&self) -> &[Item] {
        &self.items
    }

    /// The place of the tree with a number.
    pub fn place(&self, number: u32) -> Option<u32> {
        self.places.get(number as usize).copied()
    }

    /// The places of the trees with these numbers. An `Err` is want of memory.
    pub fn places_of(&self, alloc: Global, numbers: &[u32]) -> Result<Vec<u32>, AllocError> {
        let mut places = Vec::with_capacity(alloc, numbers.len())?;
        for number in numbers {
            if let Some(place) = self.place(*number) {
                places.push(place)?;
            }
        }
        Ok(places)
    }

    /// The numbers of those of the trees at ascending places that touch several parts. An `Err` is want of memory.
    pub fn numbers_of(&self, alloc: Global, places: &[u32]) -> Result<Vec<u32>, AllocError> {
        let mut numbers = Vec::with_capacity(alloc, places.len())?;
        let mut number: u32 = 0;
        for own in &self.places {
            if places.contains(own) {
                numbers.push(number)?;
            }
            number = number.wrapping_add(1);
        }
        Ok(numbers)
    }
}

// The tree at a place as an item, where it touches several parts.
fn item_at(
    trees: &[Tree],
    listed: &[Places],
    labels: &[u8],
    parts: &Parts,
    place: u32,
) -> Option<Item> {
    let tree = trees.get(place as usize)?;
    let members = listed.get(place as usize)?;
    let touched = parts.touched_by(labels, members.as_slice());
    if touched.count_ones() < 2 {
        return None;
    }
    Some(Item {
        touched,
        length: tree.length.saturating_mul(u64::from(SCALE)),
    })
}

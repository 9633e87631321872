//! What is proposed for parts and items.

ghost use Rattle.std.specs.Prelude.{◌<◌, All, IfOk};
ghost use Rattle.partition_fit.specs.Proposal.{IsChainOf};

use crate::chain::{Chain, Merge};
use crate::item::Numbered;
use crate::sets::{lowest, single};
use std::alloc::{AllocError, Global};

/// A partition of the parts, by a label for each, with its amount in units. Labels past the last part mean nothing.
#[derive(Clone, Copy)]
pub struct Level {
    pub labels: [u8; 50],
    pub amount: u64,
}

/// What is proposed for parts and items.
#[derive(Drop)]
pub struct Proposal {
    /// A nested chain of partitions that bounds, the finest first.
    pub levels: Vec<Level>,
    /// The numbers of items that are meant to join all parts, at a small length.
    pub chosen: Vec<u32>,
    /// The number of the item to split on, if one tells itself.
    pub split: Option<u32>,
}

/// The levels of a chain with at most 50 parts. An `Err` is want of memory.
pub fn levels_of(alloc: Global, parts: u8, chain: &Chain) -> Result<Vec<Level>, AllocError>
    requires some { 0 < parts }
    ensures { IfOk result (λ levels. IsChainOf parts levels.items) }
{
    let mut levels = Vec::with_capacity(alloc, 49)?;
    let mut labels = [0; 50];
    tell_apart(parts, &mut labels);
    let mut height = 0;
    for rank in 0..49u8 {
        let merge = chain.at_rank(rank);
        let amount = merge.weight.saturating_sub(height);
        if amount > 0 {
            levels.push(Level { labels, amount })?;
            height = merge.weight;
        }
        merge_labels(parts, merge, &mut labels);
    }
    Ok(levels)
}

// Labels each part by itself.
fn tell_apart(parts: u8, labels: &mut [u8])
    requires some { 0 < parts }
    ensures { All (λ label. label < parts) labels.new }
{
    let mut part = 0;
    for label in labels.iter_mut() {
        *label = part;
        if part < parts - 1 {
            part += 1;
        }
    }
}

// Gives the labels of the two blocks of a merge one label.
fn merge_labels(parts: u8, merge: Merge, labels: &mut [u8])
    requires some { 0 < parts }
    requires below { All (λ label. label < parts) labels.old }
    ensures { All (λ label. label < parts) labels.new }
{
    let block = merge.a | merge.b;
    let name = lowest(block).min(parts - 1);
    for label in labels.iter_mut() {
        if block & single(*label) != 0 {
            *label = name;
        }
    }
}

/// The numbers of items, as far as they are below a count. An `Err` is want of memory.
pub fn numbers_of(alloc: Global, items: &[Numbered], count: usize) -> Result<Vec<u32>, AllocError>
    ensures { IfOk result (λ numbers. All (λ number. number < count) numbers.items) }
{
    let mut numbers = Vec::with_capacity(alloc, items.len())?;
    for item in items {
        if (item.number as usize) < count {
            numbers.push(item.number)?;
        }
    }
    Ok(numbers)
}

//! Clusters of a concatenation: items around a part, which are few enough that a least concatenation in their place is
//! found exactly.

use crate::item::Numbered;
use crate::sets::{joins, single};

// How many parts a cluster has at most.
const MAX_PARTS: u64 = 8;

// A cluster that is being collected: the places of its items, the parts that they touch, and how many these are.
#[derive(Clone, Copy)]
struct Cluster {
    places: u64,
    reached: u64,
    parts: u64,
}

// An item that may be taken into a cluster next: its place, and its length for each part that it joins.
#[derive(Clone, Copy)]
struct Next {
    place: u8,
    item: Numbered,
    price: u64,
}

/// The places of items around a part, one bit for each: those that are cheapest for each part that they join come
/// first, or the dearest ones.
pub fn cluster_around(chosen: &[Numbered], centre: u8, dearest: bool) -> u64 {
    let mut cluster = Cluster {
        places: 0,
        reached: single(centre),
        parts: 1,
    };
    for _ in 0..MAX_PARTS {
        let Some(next) = next_in(chosen, cluster, dearest) else {
            break;
        };
        cluster.places |= single(next.place);
        cluster.reached |= next.item.touched;
        cluster.parts = cluster.parts.saturating_add(joins(next.item.touched));
    }
    cluster.places
}

// The item that a cluster takes in next, if any fits.
fn next_in(chosen: &[Numbered], cluster: Cluster, dearest: bool) -> Option<Next> {
    let mut next: Option<Next> = None;
    let mut place = 0u8;
    for item in chosen {
        if fits(*item, place, cluster) {
            if let Some(price) = item.length.checked_div(joins(item.touched)) {
                if is_before(price, next, dearest) {
                    next = Some(Next {
                        place,
                        item: *item,
                        price,
                    });
                }
            }
        }
        place = place.wrapping_add(1);
    }
    next
}

// Whether the item at a place can be taken into a cluster.
fn fits(item: Numbered, place: u8, cluster: Cluster) -> bool {
    cluster.places & single(place) == 0
        && item.touched & cluster.reached != 0
        && cluster.parts.saturating_add(joins(item.touched)) <= MAX_PARTS
}

// Whether an item of a price comes before another.
fn is_before(price: u64, next: Option<Next>, dearest: bool) -> bool {
    match next {
        Some(next) if dearest => price > next.price,
        Some(next) => price < next.price,
        None => true,
    }
}

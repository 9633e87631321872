//! The repair of a chain that overloads items: the most pulled edges are lowered.

use crate::chain::Chain;
use crate::fitted::{Fitted, pulls, weigh_crossing};
use crate::sets::single;
use crate::sweep::extremes_of;

// How often an edge is lowered at most.
const STEPS: u16 = 4000;

/// Lowers edges until no item is overloaded; tells whether it came to that.
pub fn repair(chain: &mut Chain, items: &mut [Fitted]) -> bool {
    for _ in 0..STEPS {
        let Some(worst) = most_overloaded(items) else {
            return true;
        };
        lower(chain, items, worst);
    }
    false
}

// The item with the greatest overload, the first of several; none if there is no overload.
fn most_overloaded(items: &[Fitted]) -> Option<Fitted> {
    let mut worst = None;
    let mut most = 0;
    for fitted in items {
        let overload = fitted.overload();
        if overload > most {
            most = overload;
            worst = Some(*fitted);
        }
    }
    worst
}

// Lowers the most pulled edge of an overloaded item.
fn lower(chain: &mut Chain, items: &mut [Fitted], worst: Fitted) {
    let pulls = pulls(items);
    if let Some(edge) = extremes_of(chain, worst.used, &pulls).most {
        let weight = chain.weight(edge);
        chain.set_weight(edge, weight.saturating_sub(worst.overload()));
        chain.merge();
        weigh_crossing(items, single(edge), chain);
    }
}

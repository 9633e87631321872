//! Chosen concatenations.

ghost use Rattle.std.specs.Prelude.{All, length};
ghost use Rattle.fst_concat.specs.Chosen.{HasMembersBelow};

use fst_concat::{Chosen, ChosenKind, ConcatFault, concat};
use full_tree::TreeList;
use hanan_grid::Grid;
use row_tables::{Fault, Told};
use std::alloc::Global;

/// The concatenation of the trees that a search with so many `allowed` splits chooses, or the terminal that all of them
/// leave apart.
pub fn chosen(
    alloc: Global,
    grid: &Grid,
    trees: &TreeList,
    allowed: u32,
    told: &mut Told,
) -> Result<(), Fault>
    requires { All (HasMembersBelow (length grid.now)) trees.now }
{
    if trees.len() > 20_000 {
        return Err(Fault::NotAllowed);
    }
    let points = grid.points().len();
    prove!(points <= 50);
    match concat(alloc, points as u8, trees, allowed) {
        Ok(chosen) => tell(&chosen, told),
        Err(ConcatFault::Unspanned { place }) => told.line("apart ", &place),
        Err(ConcatFault::Memory(_)) => return Err(Fault::Memory),
    }
    Ok(())
}

// Tells the kind, the total and the places.
fn tell(chosen: &Chosen, told: &mut Told) {
    match &chosen.kind {
        ChosenKind::Least => told.line("least ", &chosen.total),
        ChosenKind::Spent(trail) => {
            told.value("spent ", &chosen.total);
            told.line(" splits ", &trail.splits());
        }
    }
    told.word("places");
    for place in chosen.places.as_slice() {
        told.value(" ", place);
    }
    told.word("\n");
}

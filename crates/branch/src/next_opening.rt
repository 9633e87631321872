//! How the next leaf is opened.

ghost use Rattle.std.specs.Prelude.{◌≡◌, ◌<◌, IfOk, IfSome, IfNone};
ghost use Rattle.std.specs.Option.{option_map};
ghost use Rattle.cert_tree.specs.Preorder.{split_count};
ghost use Rattle.branch.specs.Notes.{IsNextNote};
ghost use Rattle.branch.specs.Searching.{IsSearch, IsOpeningOf, IsCarried, IsPlain, CanSplitOn, MayBeOffered, search_state};

use crate::frontier::Frontier;
use crate::offered::Offered;
use crate::opening::{Opening, child_of, decided_inside, decided_outside};
use crate::split_choice::split_choice;
use cert_tree::SplitOn;
use dual_ascent::{Chooser, Rule};
use net_graph::{NetGraph, Packing};
use std::alloc::{AllocError, Global};

/// The opening of an open leaf, given by its place in preorder: by one rule what it is split on, by the other one its
/// two ascents. An `Err` is want of memory.
pub(crate) fn opening_at<F: Rule, G: Rule>(
    alloc: Global,
    g: &NetGraph,
    kept: &Frontier,
    place: usize,
    ascent: &Chooser<F>,
    split: &Chooser<G>,
) -> Result<Opening, AllocError>
    requires search { IsSearch g.now kept.now }
    requires next { IsNextNote kept.now.best.length kept.now.notes.items place }
    requires few { split_count kept.now.tree < 255 }
    ensures opening { IfOk result (IsOpeningOf g.now kept.now) }
    ensures plain { IfOk result (IsPlain g.now kept.now) }
    ensures leaf { IfOk result (λ opening. opening.leaf ≡ place) }
{
    let on = split_choice(alloc, g, &kept.notes[place], kept.kind, split)?;
    opening_on(alloc, g, kept, place, on, None, ascent)
}

/// The opening of a leaf, given by its place in preorder, on what it may be split on, with the packings that may be
/// offered for its two children where that is a vertex. An `Err` is want of memory.
pub(crate) fn opening_on<F: Rule>(
    alloc: Global,
    g: &NetGraph,
    kept: &Frontier,
    place: usize,
    on: SplitOn,
    offered: Option<Offered>,
    ascent: &Chooser<F>,
) -> Result<Opening, AllocError>
    requires search { IsSearch g.now kept.now }
    requires can { CanSplitOn (search_state g.now kept.now) place on }
    requires offered { IfSome offered (MayBeOffered g.now.vertices on) }
    requires few { split_count kept.now.tree < 255 }
    ensures opening { IfOk result (IsOpeningOf g.now kept.now) }
    ensures carried { IfNone offered (IfOk result (IsCarried g.now kept.now)) }
    ensures leaf { IfOk result (λ opening. opening.leaf ≡ place) }
    ensures on { IfOk result (λ opening. opening.on ≡ on) }
{
    let note = &kept.notes[place];
    let before = &note.decision;
    let parent = kept.tree.packing(place as u32);
    let (for_outside, for_inside) = for_each(offered);
    let outside = child_of(
        alloc,
        g,
        note,
        parent,
        decided_outside(g, before, on)?,
        for_outside,
        ascent,
    )?;
    let inside = child_of(
        alloc,
        g,
        note,
        parent,
        decided_inside(g, before, on)?,
        for_inside,
        ascent,
    )?;
    let best = kept.best.with_children(g, &outside.note, &inside.note)?;
    Ok(Opening {
        leaf: place as u32,
        on,
        outside,
        inside,
        best,
    })
}

// What is offered for each of the two children.
fn for_each(offered: Option<Offered>) -> (Option<Packing>, Option<Packing>)
    ensures outside { result.0 ≡ option_map (λ o. o.outside) offered }
    ensures inside { result.1 ≡ option_map (λ o. o.inside) offered }
{
    match offered {
        Some(Offered { outside, inside }) => (Some(outside), Some(inside)),
        None => (None, None),
    }
}

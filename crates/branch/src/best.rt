//! The best network of a search.

ghost use Rattle.std.specs.Prelude.{◌≡◌, ◌≤◌, IfOk};
ghost use Rattle.branch.specs.States.{IsNetworkOf};

use crate::note::LeafNote;
use net_graph::{EdgeSet, NetGraph, length};
use std::alloc::AllocError;

/// A network and its length.
#[derive(Drop)]
pub(crate) struct Best {
    pub network: EdgeSet,
    pub length: u64,
}

impl Best {
    ghost use Rattle.branch.specs.Notes.{IsBest, IsOwnNetwork, IsUpToOwn, shorter_of};
    ghost use Rattle.branch.specs.States.{IsSameOrShorter};

    /// The network with its length.
    pub fn of(g: &NetGraph, network: EdgeSet) -> Best
        requires { IsNetworkOf g.now network }
        ensures network { result.network ≡ network }
        ensures best { IsBest g.now result }
    {
        let length = length(g, &network);
        Best { network, length }
    }

    /// The same again. An `Err` is want of memory.
    pub fn copy(&self) -> Result<Best, AllocError>
        ensures { IfOk result (λ best. best ≡ self.now) }
    {
        let network = self.network.copy()?;
        Ok(Best {
            network,
            length: self.length,
        })
    }

    /// The shorter one of this network and a leaf's own, and this one on a tie. An `Err` is want of memory.
    pub fn or_shorter(self, g: &NetGraph, note: &LeafNote) -> Result<Best, AllocError>
        requires best { IsBest g.now self }
        requires own { IsOwnNetwork g.now note.now.network }
        ensures best { IfOk result (λ best. IsBest g.now best) }
        ensures no_longer { IfOk result (λ best. best.length ≤ self.length) }
        ensures own { IfOk result (λ best. IsUpToOwn g.now best.length note.now.network) }
        ensures which { IfOk result (λ best. best.network ≡ shorter_of g.now self.network note.now.network) }
    {
        match &note.network {
            Some(network) if length(g, network) < self.length => Ok(Best::of(g, network.copy()?)),
            _ => Ok(self),
        }
    }

    /// The shortest one of this network and the own ones of a leaf's two children: this one on a tie, and either one
    /// where two shorter ones tie. An `Err` is want of memory.
    pub fn with_children(
        &self,
        g: &NetGraph,
        outside: &LeafNote,
        inside: &LeafNote,
    ) -> Result<Best, AllocError>
        requires best { IsBest g.now self.now }
        requires outside { IsOwnNetwork g.now outside.now.network }
        requires inside { IsOwnNetwork g.now inside.now.network }
        ensures best { IfOk result (λ best. IsBest g.now best) }
        ensures which { IfOk result (λ best. IsSameOrShorter g.now self.now.network best.network) }
        ensures outside { IfOk result (λ best. IsUpToOwn g.now best.length outside.now.network) }
        ensures inside { IfOk result (λ best. IsUpToOwn g.now best.length inside.now.network) }
    {
        let best = self.copy()?;
        let best = best.or_shorter(g, outside)?;
        best.or_shorter(g, inside)
    }
}

//! The graph of a file.

ghost use Rattle.std.specs.Prelude.{◌≡◌, ◌<◌, ◌≤◌, ◌^◌, length, map, All, IfOk, IfErr, IfNone, IfSome, OnOk, IsTrue};
ghost use Rattle.std.specs.Prelude.{Ok, Err};
ghost use Rattle.stp_format.specs.Value.{is_node};
ghost use Rattle.net_graph.specs.Graph.{IsGraph, HasEndsBelow};
ghost use Rattle.net_graph.specs.Network.{IsNetwork};
ghost use Rattle.graph_solve.specs.Task.{edge_of, terminals_of, graph_of_stp, total_of_stp, all_edges};
ghost use Rattle.graph_solve.specs.Fault.{Answers, HasFirstFault, HasTerminal, HasLengths, IsTask};
ghost use Rattle.graph_solve.specs.Fault.{IsFirstApartNode, IsFirstFault};
ghost use Rattle.graph_solve.specs.declared.fault.TaskFault.{TaskFault};

use crate::fault::TaskFault;
use lists::ItemList;
use net_graph::{
    Edge, EdgeList, EdgeSet, GraphFault, NetGraph, VertexList, first_apart, without_repeats,
};
use std::alloc::{AllocError, Global};
use stp_format::{StpEdge, StpFile};

/// The graph of an STP file: node i is vertex i - 1, the edges have their places as numbers, counted from 0, and the
/// terminals stand in the order of their lines, without repeats. Loops and parallel edges are edges like others. An
/// `Err` is the first fault of the file in the order of `TaskFault`, or want of memory.
pub fn graph_of(alloc: Global, file: &StpFile) -> Result<NetGraph, TaskFault>
    ensures graph { IfOk result (λ g. g ≡ graph_of_stp file.now) }
    ensures sound { IfOk result (λ g. IsGraph g) }
    ensures few { IfOk result (λ g. length g.terminals ≤ 255) }
    ensures joined { IfOk result (λ g. IsNetwork g (all_edges g)) }
    ensures task { OnOk result (IsTask file.now) }
    ensures fault { IfErr result (IsFirstFault file.now) }
    // A problem's graph is given, and a first fault is told, unless memory runs out.
    ensures only { IsTask file.now → Answers result (Ok (graph_of_stp file.now)) }
    ensures only_fault { (f : TaskFault) → HasFirstFault file.now f → Answers result (Err f) }
{
    joined_graph(alloc, file)
}

// The graph, where all edges together join its terminals.
fn joined_graph(alloc: Global, file: &StpFile) -> Result<NetGraph, TaskFault>
    ensures graph { IfOk result (λ g. g ≡ graph_of_stp file.now) }
    ensures sound { IfOk result (λ g. IsGraph g) }
    ensures few { IfOk result (λ g. length g.terminals ≤ 255) }
    ensures joined { IfOk result (λ g. IsNetwork g (all_edges g)) }
    ensures task { OnOk result (IsTask file.now) }
    ensures fault { IfErr result (IsFirstFault file.now) }
{
    let terminals = few_terminals(alloc, file)?;
    let edges = edges_in(alloc, file)?;
    let graph = sound_graph(alloc, file, edges, terminals)?;
    match first_apart_node(alloc, &graph)? {
        None => Ok(graph),
        Some(node) => Err(TaskFault::Apart(node)),
    }
}

// The terminals of a small file, of which there is one at least.
fn few_terminals(alloc: Global, file: &StpFile) -> Result<VertexList, TaskFault>
    ensures terminals { IfOk result (λ list. list ≡ terminals_of file.now) }
    ensures vertices { IfOk result (λ list. All (λ t. t < file.now.nodes) list) }
    ensures some { OnOk result (HasTerminal file.now) }
    ensures fault { IfErr result (IsFirstFault file.now) }
{
    if file.nodes() > 2500 {
        return Err(TaskFault::TooManyNodes);
    }
    if file.edge_count() > 4900 {
        return Err(TaskFault::TooManyEdges);
    }
    let terminals = terminals_in(alloc, file)?;
    if terminals.len() > 255 {
        return Err(TaskFault::TooManyTerminals);
    }
    if file.terminal_count() == 0 {
        return Err(TaskFault::NoTerminals);
    }
    Ok(terminals)
}

// The vertices of the terminals, each once. An `Err` is want of memory.
fn terminals_in(alloc: Global, file: &StpFile) -> Result<VertexList, AllocError>
    ensures terminals { IfOk result (λ list. list ≡ terminals_of file.now) }
    ensures vertices { IfOk result (λ list. All (λ t. t < file.now.nodes) list) }
{
    let mut vertices = Vec::with_capacity(alloc, file.terminal_count() as usize)?;
    for n in 0..file.terminal_count() {
        vertices.push_reserved(file.terminal(n) - 1);
    }
    let distinct = without_repeats(alloc, vertices.as_slice(), file.nodes())?;
    Ok(ItemList::from_vec(distinct))
}

// The edges between the vertices of their nodes. An `Err` is want of memory.
fn edges_in(alloc: Global, file: &StpFile) -> Result<EdgeList, AllocError>
    ensures edges { IfOk result (λ edges. edges ≡ map edge_of file.now.edges) }
    ensures ends { IfOk result (λ edges. All (HasEndsBelow file.now.nodes) edges) }
{
    let mut edges = Vec::with_capacity(alloc, file.edge_count() as usize)?;
    for n in 0..file.edge_count() {
        edges.push_reserved(between_vertices(file.nodes(), file.edge(n)));
    }
    Ok(ItemList::from_vec(edges))
}

// The edge between the vertices of its nodes.
fn between_vertices(_nodes: u32, edge: StpEdge) -> Edge
    requires i { IsTrue (is_node _nodes edge.i) }
    requires j { IsTrue (is_node _nodes edge.j) }
    ensures edge { result ≡ edge_of edge }
    ensures ends { HasEndsBelow _nodes result }
{
    Edge {
        a: edge.i - 1,
        b: edge.j - 1,
        length: edge.length,
    }
}

// The graph of these parts of a file, where their lengths have no fault.
fn sound_graph(
    alloc: Global,
    file: &StpFile,
    edges: EdgeList,
    terminals: VertexList,
) -> Result<NetGraph, TaskFault>
    requires file { HasTerminal file.now }
    requires edges { edges ≡ map edge_of file.now.edges }
    requires ends { All (HasEndsBelow file.now.nodes) edges }
    requires terminals { terminals ≡ terminals_of file.now }
    requires vertices { All (λ t. t < file.now.nodes) terminals }
    ensures graph { IfOk result (λ g. g ≡ graph_of_stp file.now) }
    ensures sound { IfOk result (λ g. IsGraph g) }
    ensures lengths { OnOk result (HasLengths file.now) }
    ensures total { OnOk result (total_of_stp file.now < 2 ^ 63) }
    ensures fault { IfErr result (IsFirstFault file.now) }
{
    match NetGraph::new(alloc, file.nodes(), edges, terminals) {
        Ok(graph) => Ok(graph),
        Err(GraphFault::ZeroLength(e)) => Err(TaskFault::ZeroLength(e + 1)),
        Err(GraphFault::TooLong { total }) => Err(TaskFault::TooLong { total }),
        Err(GraphFault::Memory(error)) => Err(TaskFault::Memory(error)),
        Err(GraphFault::EndOutOfRange(_)) => unreachable!(),
        Err(GraphFault::NoTerminal) => unreachable!(),
        Err(GraphFault::TerminalOutOfRange(_)) => unreachable!(),
    }
}

// The node of the first terminal that all edges together don't join to the first one: none where they join all. An
// `Err` is want of memory.
fn first_apart_node(alloc: Global, g: &NetGraph) -> Result<Option<u32>, AllocError>
    requires { length g.now.terminals ≤ 255 }
    ensures none { IfOk result (λ node. IfNone node (IsNetwork g.now (all_edges g.now))) }
    ensures first { IfOk result (λ node. IfSome node (IsFirstApartNode g.now)) }
{
    let all = EdgeSet::full(alloc, g.edge_count())?;
    let terminals = g.terminals();
    match first_apart(alloc, g, &all)? {
        None => Ok(None),
        Some(place) => Ok(Some(terminals[place as usize] + 1)),
    }
}

//! Graphs, sets, decisions and packings as rows describe them. The calls on searches describe theirs in the same way.

ghost use Rattle.std.specs.Prelude.{◌≡◌, length, All, IfOk, IsTrue};
ghost use Rattle.net_graph.specs.Decision.{IsDecisionFor, IsUndecided, IsVertexUndecided};
ghost use Rattle.dual_ascent.specs.Carried.{DecidesOneMore};
ghost use Rattle.branch.specs.States.{IsNetworkOf};

use lists::ItemList;
use net_graph::{
    Cut, Decision, Edge, EdgeSet, EdgeState, GraphFault, NetGraph, Packing, VertexSet, joins,
    vertex_undecided,
};
use row_tables::{Call, Fault, exactly, narrow, narrow_numbers, number, numbers};
use std::alloc::Global;

// What a text says of a graph: the count of its vertices, its edges and its terminals.
#[derive(Drop)]
struct GraphParts {
    vertices: u32,
    edges: Vec<Edge>,
    terminals: Vec<u32>,
}

/// The graph under the key `graph`: its first line has the count of vertices behind the word `vertices`, each further
/// one an edge's ends and length, and the last one, behind the word `terminals`, the terminals. The inner fault is that
/// of the graph.
pub fn try_graph(alloc: Global, call: &Call) -> Result<Result<NetGraph, GraphFault>, Fault> {
    let text = call.text("graph")?;
    let mut parts = GraphParts {
        vertices: 0,
        edges: Vec::new(alloc),
        terminals: Vec::new(alloc),
    };
    read_parts(alloc, text, &mut parts)?;
    made(alloc, parts)
}

// Reads the lines of a graph.
fn read_parts(alloc: Global, text: &str, parts: &mut GraphParts) -> Result<(), Fault> {
    for line in text.lines() {
        read_part(alloc, line, parts)?;
    }
    Ok(())
}

// Reads a line of a graph.
fn read_part(alloc: Global, line: &str, parts: &mut GraphParts) -> Result<(), Fault> {
    if let Some(rest) = line.strip_prefix("vertices") {
        parts.vertices = only(rest)?;
    } else if let Some(rest) = line.strip_prefix("terminals") {
        parts.terminals = narrow_numbers(alloc, rest)?;
    } else {
        parts.edges.push(edge(line)?)?;
    }
    Ok(())
}

// The graph of these parts, where they are few.
fn made(alloc: Global, parts: GraphParts) -> Result<Result<NetGraph, GraphFault>, Fault> {
    let GraphParts {
        vertices,
        edges,
        terminals,
    } = parts;
    if vertices > 2500 || edges.len() > 4900 {
        return Err(Fault::NotAllowed);
    }
    Ok(NetGraph::new(
        alloc,
        vertices,
        ItemList::from_vec(edges),
        ItemList::from_vec(terminals),
    ))
}

/// The graph under the key `graph`, which has no fault.
pub fn graph(alloc: Global, call: &Call) -> Result<NetGraph, Fault> {
    match try_graph(alloc, call)? {
        Ok(g) => Ok(g),
        Err(_) => Err(Fault::NotAllowed),
    }
}

/// The set of edges under a key, of the size of the graph.
pub fn edges(alloc: Global, call: &Call, g: &NetGraph, key: &str) -> Result<EdgeSet, Fault>
    ensures { IfOk result (λ set. length set ≡ length g.now.edges) }
{
    edges_of(alloc, g, &call.narrow_numbers(alloc, key)?)
}

/// The edges under the key `edges`, which are a network.
pub fn network(alloc: Global, call: &Call, g: &NetGraph) -> Result<EdgeSet, Fault>
    ensures { IfOk result (λ set. IsNetworkOf g.now set) }
{
    let set = edges(alloc, call, g, "edges")?;
    if joins(alloc, g, &set)? {
        Ok(set)
    } else {
        Err(Fault::NotAllowed)
    }
}

// The set of these edges, of the size of the graph.
fn edges_of(alloc: Global, g: &NetGraph, numbers: &[u32]) -> Result<EdgeSet, Fault>
    ensures { IfOk result (λ set. length set ≡ length g.now.edges) }
{
    let mut set = EdgeSet::empty(alloc, g.edge_count())?;
    for e in numbers {
        if *e >= set.len() {
            return Err(Fault::NotAllowed);
        }
        set.add(*e);
    }
    Ok(set)
}

/// The decision under the key `decided`, a line for each of its steps: `inside` or `outside` and an edge, `met` or
/// `missed` and a vertex, where that is still open. Where the key is missing, nothing is decided.
pub fn decision(alloc: Global, call: &Call, g: &NetGraph) -> Result<Decision, Fault>
    ensures { IfOk result (λ d. IsDecisionFor g.now d) }
{
    if call.has("decided") {
        decided_by(alloc, g, call.text("decided")?)
    } else {
        Ok(Decision::none(alloc, g)?)
    }
}

// The decision of these steps.
fn decided_by(alloc: Global, g: &NetGraph, lines: &str) -> Result<Decision, Fault>
    ensures { IfOk result (λ d. IsDecisionFor g.now d) }
{
    let mut d = Decision::none(alloc, g)?;
    for line in lines.lines() {
        d = decided(alloc, g, &d, line)?;
    }
    Ok(d)
}

// A step of a decision: what becomes of which edge or vertex.
#[derive(Clone, Copy)]
enum Step {
    Inside(u32),
    Outside(u32),
    Met(u32),
    Missed(u32),
}

/// The decision with one more step, which a line says.
pub fn decided(alloc: Global, g: &NetGraph, d: &Decision, line: &str) -> Result<Decision, Fault>
    requires { IsDecisionFor g.now d.now }
    ensures decision { IfOk result (λ now. IsDecisionFor g.now now) }
    ensures one_more { IfOk result (DecidesOneMore g.now d.now) }
{
    match read_step(line)? {
        Step::Inside(e) if is_open_edge(g, d, e) => Ok(d.with_inside(g, e)?),
        Step::Outside(e) if is_open_edge(g, d, e) => Ok(d.with_outside(g, e)?),
        Step::Met(v) if is_open_vertex(g, d, v) => Ok(d.with_met(g, v)?),
        Step::Missed(v) if is_open_vertex(g, d, v) => Ok(d.with_missed(g, v)?),
        _ => Err(Fault::NotAllowed),
    }
}

// The step that a line says.
fn read_step(line: &str) -> Result<Step, Fault> {
    let (word, number) = line.split_once(' ').ok_or(Fault::NoArgument)?;
    let n = only(number)?;
    match word {
        "inside" => Ok(Step::Inside(n)),
        "outside" => Ok(Step::Outside(n)),
        "met" => Ok(Step::Met(n)),
        "missed" => Ok(Step::Missed(n)),
        _ => Err(Fault::NotAllowed),
    }
}

// Whether there is this edge, and it is undecided.
fn is_open_edge(g: &NetGraph, d: &Decision, e: u32) -> bool
    requires { IsDecisionFor g.now d.now }
    ensures { IsTrue result → IsUndecided g.now d.now e }
{
    e < g.edge_count() && d.state(g, e) == EdgeState::Undecided
}

// Whether there is this vertex, and it is undecided.
fn is_open_vertex(g: &NetGraph, d: &Decision, v: u32) -> bool
    ensures { IsTrue result → IsVertexUndecided g.now d.now v }
{
    v < g.vertex_count() && vertex_undecided(g, d, v)
}

/// The packing under a key, a line for each cut: its weight, and its members.
pub fn packing(alloc: Global, call: &Call, g: &NetGraph, key: &str) -> Result<Packing, Fault>
    ensures { IfOk result (λ p. All (λ c. length c.members ≡ g.now.vertices) p) }
{
    let mut packing = Packing::empty(alloc);
    for line in call.text(key)?.lines() {
        packing.push(cut(alloc, g, line)?)?;
    }
    Ok(packing)
}

/// The only number of a text, of 32 bits.
pub fn only(text: &str) -> Result<u32, Fault> {
    narrow(number(text.trim())?)
}

// The edge of a line: its ends and its length.
fn edge(line: &str) -> Result<Edge, Fault> {
    let [a, b, length] = exactly::<3>(line)?;
    Ok(Edge {
        a: narrow(a)?,
        b: narrow(b)?,
        length,
    })
}

// The cut of a line: its weight, and its members among the vertices of the graph.
fn cut(alloc: Global, g: &NetGraph, line: &str) -> Result<Cut, Fault>
    ensures { IfOk result (λ c. length c.members ≡ g.now.vertices) }
{
    cut_of(alloc, g, &numbers(alloc, line)?)
}

// The cut of numbers: the first one is its weight.
fn cut_of(alloc: Global, g: &NetGraph, numbers: &[u64]) -> Result<Cut, Fault>
    ensures { IfOk result (λ c. length c.members ≡ g.now.vertices) }
{
    let (weight, rest) = numbers.split_first().ok_or(Fault::NoArgument)?;
    Ok(Cut {
        weight: *weight,
        members: members_of(alloc, g, rest)?,
    })
}

/// The set of these vertices of a graph.
pub fn members_of(alloc: Global, g: &NetGraph, numbers: &[u64]) -> Result<VertexSet, Fault>
    ensures { IfOk result (λ set. length set ≡ g.now.vertices) }
{
    let mut set = VertexSet::empty(alloc, g.vertex_count())?;
    for number in numbers {
        add_member(&mut set, *number)?;
    }
    Ok(set)
}

// Adds a vertex to a set.
fn add_member(set: &mut VertexSet, number: u64) -> Result<(), Fault>
    ensures { length set.new ≡ length set.old }
{
    let v = narrow(number)?;
    if v >= set.len() {
        return Err(Fault::NotAllowed);
    }
    set.add(v);
    Ok(())
}

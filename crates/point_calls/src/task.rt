//! Calls on Steiner problems in the graphs of STP files: the graph of a file, a first network, and the checker of
//! answers.

ghost use Rattle.std.specs.Prelude.{◌≤◌, length, IfOk};
ghost use Rattle.net_graph.specs.Network.{IsNetwork};
ghost use Rattle.graph_solve.specs.Task.{all_edges};

use crate::text::given::said_of;
use graph_calls::told::tell_edges;
use graph_solve::{TaskFault, check_graph, first_network, graph_of};
use net_graph::{NetGraph, length};
use row_tables::{Call, Fault, Told};
use std::alloc::Global;
use stp_format::{StpFile, read_stp};
use text_in::FormatFault;

/// Makes the call of a row, and writes what comes of it: the fault of the STP file under `file` as a Steiner problem,
/// or what is asked of its graph. The file may stand in several pieces, one behind the other.
pub fn answer(alloc: Global, call: &Call, told: &mut Told) -> Result<(), Fault> {
    let file = given_file(alloc, call)?;
    of_problem(alloc, call, graph_of(alloc, &file), told)
}

// Makes a call on the graph that was made of a file, or tells its fault.
fn of_problem(
    alloc: Global,
    call: &Call,
    made: Result<NetGraph, TaskFault>,
    told: &mut Told,
) -> Result<(), Fault>
    requires few { IfOk made (λ g. length g.terminals ≤ 255) }
    requires joined { IfOk made (λ g. IsNetwork g (all_edges g)) }
{
    match made {
        Ok(g) => of_graph(alloc, call, &g, told),
        Err(fault) => tell_fault(alloc, fault, told),
    }
}

// Makes a call on the graph of a file: `graph` tells it, `network` the edges of a first network and their length,
// `check` the verdict on `bytes` as an answer in the graph.
fn of_graph(alloc: Global, call: &Call, g: &NetGraph, told: &mut Told) -> Result<(), Fault>
    requires few { length g.now.terminals ≤ 255 }
    requires joined { IsNetwork g.now (all_edges g.now) }
{
    match call.kind() {
        "graph" => {
            tell_graph(g, told);
            Ok(())
        }
        "network" => tell_network(alloc, g, told),
        "check" => tell_verdict(alloc, g, call.bytes("bytes")?, told),
        _ => Err(Fault::UnknownSubject),
    }
}

// The STP file whose pieces stand under `file`.
fn given_file(alloc: Global, call: &Call) -> Result<StpFile, Fault> {
    let mut bytes = Vec::new(alloc);
    for piece in &call.arguments {
        if piece.name.as_str() == "file" {
            bytes.extend_from_slice(&piece.text.bytes)?;
        }
    }
    match read_stp(alloc, &bytes) {
        Ok(file) => Ok(file),
        Err(_) => Err(Fault::NotAllowed),
    }
}

// Tells what is said of a fault, and whether it passes a limit.
fn tell_fault(alloc: Global, fault: TaskFault, told: &mut Told) -> Result<(), Fault> {
    let is_limit = fault.passes_limit();
    told.word(said_of(alloc, fault)?.as_str());
    told.word(if is_limit {
        ", which is a limit\n"
    } else {
        "\n"
    });
    Ok(())
}

// Tells the vertices, edges and terminals of a graph.
fn tell_graph(g: &NetGraph, told: &mut Told) {
    told.line("vertices ", &g.vertex_count());
    for edge in g.edges() {
        told.show(&edge.a);
        told.value(" ", &edge.b);
        told.line(" ", &edge.length);
    }
    told.word("terminals");
    for terminal in g.terminals() {
        told.value(" ", terminal);
    }
    told.word("\n");
}

// Tells the edges of a first network, and their length.
fn tell_network(alloc: Global, g: &NetGraph, told: &mut Told) -> Result<(), Fault>
    requires { IsNetwork g.now (all_edges g.now) }
{
    let set = first_network(alloc, g)?;
    tell_edges(told, "network", &set);
    told.line("length ", &length(g, &set));
    Ok(())
}

// Tells the verdict on bytes as an answer in a graph.
fn tell_verdict(alloc: Global, g: &NetGraph, bytes: &[u8], told: &mut Told) -> Result<(), Fault>
    requires { length g.now.terminals ≤ 255 }
{
    if bytes.len() >= 1 << 32 {
        return Err(Fault::NotAllowed);
    }
    told.debug_line("", &check_graph(alloc, g, bytes)?);
    Ok(())
}

//! Answers that are written.

ghost use Rattle.std.specs.Prelude.{IfOk};
ghost use Rattle.hanan_grid.specs.Grid.{hanan_grid_of};
ghost use Rattle.answer_text.specs.Answers.{IsAnswerOn};

use crate::answer::described::cuts;
use answer_text::{Answer, AnswerHead, ConcatNote, answer_len, write_answer};
use cert_tree::CertTree;
use graph_calls::described::edges;
use hanan_grid::Grid;
use row_tables::{Call, Fault, Told, exactly, shown};
use rst_outside::MemSink;
use std::alloc::Global;

/// The greatest number of bytes that are written.
const ROOM: usize = 1 << 16;

/// The text of an answer whose tree is a leaf, and its length.
pub fn write(alloc: Global, call: &Call, grid: &Grid, told: &mut Told) -> Result<(), Fault> {
    write_described(alloc, grid, &described_answer(alloc, call, grid)?, told)
}

// The text of an answer, and its length.
fn write_described(
    alloc: Global,
    grid: &Grid,
    described: &Answer,
    told: &mut Told,
) -> Result<(), Fault>
    requires { IsAnswerOn (hanan_grid_of grid.now) described.now }
{
    let mut sink = MemSink::with_room(alloc, ROOM, 7, Vec::new(alloc))?;
    if write_answer(&mut sink, grid, described).is_err() {
        told.word("cut short\n");
    }
    told.word(shown(sink.bytes())?);
    told.show(&answer_len(grid, described));
    told.word(" bytes\n");
    Ok(())
}

// The answer whose head, edges and cuts stand under these words.
fn described_answer(alloc: Global, call: &Call, grid: &Grid) -> Result<Answer, Fault>
    ensures { IfOk result (λ answer. IsAnswerOn (hanan_grid_of grid.now) answer) }
{
    let g = grid.graph();
    let head = head(call)?;
    let network = edges(alloc, call, g, "edges")?;
    let cuts = cuts(alloc, call, grid)?;
    if cuts.len() > 4 * g.edge_count() as usize + 1 {
        return Err(Fault::NotAllowed);
    }
    Ok(Answer {
        head,
        network,
        tree: CertTree::leaf(alloc, cuts)?,
    })
}

// The head under `head`: length, bound, 1 for optimal or 0, openings, 1 for least or 0, and the total.
fn head(call: &Call) -> Result<AnswerHead, Fault> {
    let [length, bound, optimal, openings, least, total] = exactly::<6>(call.text("head")?)?;
    if openings > 255 {
        return Err(Fault::BadNumber);
    }
    Ok(AnswerHead {
        length,
        bound,
        optimal: optimal == 1,
        openings: openings as u8,
        concat: ConcatNote {
            least: least == 1,
            total: u128::from(total),
        },
    })
}

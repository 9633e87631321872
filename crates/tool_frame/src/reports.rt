//! What is said on `err`. A fault of `err` changes nothing else.

ghost use Rattle.rst_outside.specs.Sink.{Writes};
ghost use Rattle.text_out.specs.Gathers.{Gathers};
ghost use Rattle.tool_frame.specs.Ends.{Reports, fault_line, unwritten_line};

use crate::fault::Fault;
use rst_outside::{PutFault, Sink, put_all};
use text_out::{Block, finish, literal};

/// Says a line on `err`.
pub fn report<R: Sink>(err: &mut R, line: &[u8])
    ensures { Reports (R.state err.old) line.now (R.state err.new) }
{
    let _ = put_all(err, line);
}

/// Says on `err` why a tool refuses.
pub(crate) fn report_fault<R: Sink, F: Fault>(err: &mut R, tool: &[u8], fault: &F)
    ensures { Reports (R.state err.old) (fault_line tool.now (F.text fault.now)) (R.state err.new) }
{
    let _ = write_fault(err, tool, fault);
}

/// Says on `err` that a tool could not write its text.
pub(crate) fn report_unwritten<R: Sink>(err: &mut R, tool: &[u8])
    ensures { Reports (R.state err.old) (unwritten_line tool.now) (R.state err.new) }
{
    let _ = write_unwritten(err, tool);
}

// The line of a fault under a tool.
#[tactic(auto, using(text_out::specs::GatherLaws::pieces))]
fn write_fault<R: Sink, F: Fault>(err: &mut R, tool: &[u8], fault: &F) -> Result<(), PutFault>
    ensures { Writes (R.state err.old) (fault_line tool.now (F.text fault.now)) (R.state err.new) result }
{
    let mut block = Block::new();
    write_line(&mut block, err, tool, fault);
    finish(block, err)
}

// That line, of which the last bytes wait in the block.
#[tactic(auto, using(text_out::specs::GatherLaws::pieces))]
fn write_line<R: Sink, F: Fault>(block: &mut Block, err: &mut R, tool: &[u8], fault: &F)
    ensures { Gathers (R.state err.old) block.old (fault_line tool.now (F.text fault.now)) (R.state err.new) block.new }
{
    literal(block, err, b"rst: ");
    literal(block, err, tool);
    literal(block, err, b": ");
    fault.write(block, err);
    literal(block, err, b"\n");
}

// The line of a failed write under a tool.
#[tactic(auto, using(text_out::specs::GatherLaws::pieces))]
fn write_unwritten<R: Sink>(err: &mut R, tool: &[u8]) -> Result<(), PutFault>
    ensures { Writes (R.state err.old) (unwritten_line tool.now) (R.state err.new) result }
{
    let mut block = Block::new();
    write_unwritten_line(&mut block, err, tool);
    finish(block, err)
}

// That line, of which the last bytes wait in the block.
#[tactic(auto, using(text_out::specs::GatherLaws::pieces))]
fn write_unwritten_line<R: Sink>(block: &mut Block, err: &mut R, tool: &[u8])
    ensures { Gathers (R.state err.old) block.old (unwritten_line tool.now) (R.state err.new) block.new }
{
    literal(block, err, b"rst: ");
    literal(block, err, tool);
    literal(block, err, b": cannot write\n");
}

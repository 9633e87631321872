//! The block in which the bytes of a text wait for their sink.

ghost use Rattle.std.specs.Prelude.{◌≡◌, ◌+◌, ◌≤◌, [], ◌++◌, length, Some, IsTrue, ◌↔◌, IfSome, option_map};
ghost use Rattle.std.specs.Option.{ForSome};
ghost use Rattle.text_out.specs.Gathers.{Gathers, Finishes};

use rst_outside::{PutFault, Sink, put_all};
use std::marker::Model;

/// How many bytes a block holds at most.
const BLOCK_SIZE: usize = 4096;

/// Bytes of a text that wait for their sink, in place. A block also remembers that the sink has failed: from
/// then on nothing more of the text is written. Contracts see the waiting bytes, or nothing after a failure.
#[derive(Drop)]
pub struct Block {
    bytes: [u8; BLOCK_SIZE],
    used: usize,
    failed: bool,
}

impl Model for Block {
    ghost use Rattle.std.specs.Prelude.{ℕ, ◌≤◌, List, take, Option, Some, None, if◌then◌else◌};
    ghost use Rattle.text_out.specs.declared.block.TheConstants.{BLOCK_SIZE};

    ghost Value = { Option (List ℕ) };

    ghost view = { λ block. if block.failed then None else Some (take block.used block.bytes) };

    ghost invariant = { λ block. block.used ≤ BLOCK_SIZE };
}

impl Block {
    /// A block in which nothing waits.
    pub fn new() -> Self
        ensures { result ≡ Some [] }
    {
        Block {
            bytes: [0; BLOCK_SIZE],
            used: 0,
            failed: false,
        }
    }

    /// Whether a text may be appended: there is room for it, or the sink has failed.
    pub(crate) fn has_room(&self, text: &[u8]) -> bool
        ensures { IsTrue result
            ↔ IfSome self.now (λ waiting. length waiting + length text.now ≤ BLOCK_SIZE) }
    {
        self.failed || text.len() <= BLOCK_SIZE - self.used
    }

    /// Appends a text to what waits, unless the sink has failed.
    pub(crate) fn append(&mut self, text: &[u8])
        requires { ForSome self.old (λ waiting. length waiting + length text.now ≤ BLOCK_SIZE) }
        ensures { self.new ≡ option_map (λ waiting. waiting ++ text.now) self.old }
    {
        if !self.failed {
            let end = self.used + text.len();
            self.bytes[self.used..end].copy_from_slice(text);
            self.used = end;
        }
    }

    /// Writes out what waits, and then appends the text or, where it is longer than a block, writes it too.
    pub(crate) fn spill<S: Sink>(&mut self, sink: &mut S, text: &[u8])
        ensures { Gathers (S.state sink.old) self.old text.now (S.state sink.new) self.new }
    {
        self.flush(sink);
        if self.has_room(text) {
            self.append(text);
        } else {
            self.pass(sink, text);
        }
    }

    /// Writes out what waits, unless the sink has failed. Then nothing waits.
    fn flush<S: Sink>(&mut self, sink: &mut S)
        ensures empty { IfSome self.new (λ waiting. waiting ≡ []) }
        ensures gathers { Gathers (S.state sink.old) self.old [] (S.state sink.new) self.new }
    {
        if !self.failed {
            self.failed = put_all(sink, &self.bytes[..self.used]).is_err();
            self.used = 0;
        }
    }

    /// Writes a text past the block, in which nothing waits, unless the sink has failed.
    fn pass<S: Sink>(&mut self, sink: &mut S, text: &[u8])
        requires { ForSome self.old (λ waiting. waiting ≡ []) }
        ensures { Gathers (S.state sink.old) self.old text.now (S.state sink.new) self.new }
    {
        if !self.failed {
            self.failed = put_all(sink, text).is_err();
        }
    }
}

/// Writes out what waits: the end of a text. An `Err` says that the sink failed, here or at an earlier piece, and
/// that the text was cut short.
pub fn finish<S: Sink>(block: Block, sink: &mut S) -> Result<(), PutFault>
    ensures { Finishes (S.state sink.old) block (S.state sink.new) result }
{
    if block.failed {
        return Err(PutFault);
    }
    put_all(sink, &block.bytes[..block.used])
}

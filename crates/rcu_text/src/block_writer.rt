//! The bytes that are buffered for a writer.
ghost use Rattle.std.specs.Prelude.{◌≡◌, ◌≤◌, ◌∷◌, [], length, OnErr, OnOk};
ghost use Rattle.rcu_text.specs.Outputs.{Out, Puts, after_put_text, waiting_for};
ghost use Rattle.rcu_text.specs.Streams.{Writes};

use crate::streams::{Failed, Sink};
use arrayvec::ArrayVec;

/// The most bytes that are buffered: a page.
const BLOCK: usize = 4096;

/// A buffered output of texts. They wait in a block: a caller first makes room, and then puts a
/// text without a refusal.
pub trait Output {
    /// The bytes that the writer took, the buffered ones, and how many more may be buffered.
    ghost out: { Self → Out };

    /// Makes room for this number of bytes: writes the buffered ones if these would not fit behind
    /// them.
    ///
    /// If the writer fails, it took a prefix of the buffered bytes.
    fn make_room(&mut self, most: usize) -> Result<(), Failed>
        requires { most ≤ 4096 }
        ensures bytes { Puts result (out self.old) (out self.new) [] }
        ensures room { OnOk result (most ≤ (out self.new).room) };

    /// Puts a text behind the buffered bytes. Costs a step for each byte.
    fn put_text(&mut self, text: &[u8])
        requires { length text.now ≤ (out self.old).room }
        ensures { out self.new ≡ after_put_text (out self.old) text.now };

    /// Puts a byte behind the buffered bytes.
    fn put_byte(&mut self, byte: u8)
        requires { 1 ≤ (out self.old).room }
        ensures { out self.new ≡ after_put_text (out self.old) (byte ∷ []) };

    /// Writes the buffered bytes. At `Ok` none is left.
    ///
    /// If the writer fails, it took a prefix of the buffered bytes.
    fn flush(&mut self) -> Result<(), Failed>
        ensures bytes { Puts result (out self.old) (out self.new) [] }
        ensures empty { OnOk result ((out self.new).waiting ≡ []) };
}

/// A writer with the bytes that are buffered for it. It takes them a block at a time.
#[derive(Drop)]
pub struct BlockWriter<'a, W: Sink> {
    sink: &'a mut W,
    block: ArrayVec<u8, BLOCK>,
}

impl<'a, W: Sink> BlockWriter<'a, W> {
    /// Returns a writer without buffered bytes.
    pub fn new(sink: &'a mut W) -> BlockWriter<'a, W>
        ensures { ⟦<BlockWriter<'a, W> as Output>⟧.out result
            ≡ waiting_for (W.outgoing sink.old) sink.entry.ghost_name 4096 }
    {
        BlockWriter {
            sink,
            block: ArrayVec::new(),
        }
    }
}

impl<'a, W: Sink> Output for BlockWriter<'a, W> {
    ghost use Rattle.std.specs.Prelude.{◌-◌};

    ghost out = { λ w. record {
      writer = W.outgoing w.sink.now;
      waiting = w.block.items;
      room = 4096 - length w.block.items;
      name = w.sink.ghost_name;
    } };

    fn make_room(&mut self, most: usize) -> Result<(), Failed> {
        if self.block.remaining_capacity() < most {
            return self.flush();
        }
        Ok(())
    }

    fn put_text(&mut self, text: &[u8]) {
        let room = self.block.remaining_capacity();
        prove!(text.len() <= room);
        let fits = self.block.try_extend_from_slice(text).is_ok();
        prove!(fits);
    }

    fn put_byte(&mut self, byte: u8) {
        let room = self.block.remaining_capacity();
        prove!(room > 0);
        self.block.push(byte);
    }

    fn flush(&mut self) -> Result<(), Failed> {
        write_block(self.sink, &mut self.block)
    }
}

/// Writes the bytes of the block, and empties it.
fn write_block<W: Sink>(sink: &mut W, block: &mut ArrayVec<u8, BLOCK>) -> Result<(), Failed>
    ensures written { Writes result (W.outgoing sink.old) (W.outgoing sink.new) block.old.items }
    ensures empty { OnOk result (block.new.items ≡ []) }
    ensures unchanged { OnErr result (block.new.items ≡ block.old.items) }
{
    write_all(sink, block.as_slice())?;
    block.clear();
    Ok(())
}

/// Writes all of the bytes.
fn write_all<W: Sink>(sink: &mut W, bytes: &[u8]) -> Result<(), Failed>
    ensures { Writes result (W.outgoing sink.old) (W.outgoing sink.new) bytes.now }
{
    let mut rest = bytes;
    while !rest.is_empty() {
        let taken = sink.write(rest)?;
        rest = rest.split_at(taken).1;
    }
    Ok(())
}

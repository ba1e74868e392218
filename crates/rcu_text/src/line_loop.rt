//! The lines of a reader, split and answered, from bytes to bytes.
ghost use Rattle.std.specs.Prelude.{◌≡◌, ◌≢◌, ◌++◌, ◌∷◌, ℕ, List, [], All, IfNone, IfSome, OnOk};
ghost use Rattle.rcu_text.specs.Lines.{kept_of, lines_of};
ghost use Rattle.rcu_text.specs.Outputs.{Out, Puts};
ghost use Rattle.rcu_text.specs.Runs.{RunsThrough, ends_of};
ghost use Rattle.rcu_text.specs.Underway.{GoesOn, LineIsAnswered, LinesAreAnswered};
ghost use Rattle.rcu_text.specs.Underway.{OneMoreIsAnswered, Underway};

use crate::block_writer::{BlockWriter, Output};
use crate::line_buffer::LineBuffer;
use crate::streams::{Failed, Sink, Source};

/// How many bytes are read at once: some pages, so that a read is cheap compared with its lines.
const BLOCK: usize = 16_384;

/// Replies to lines, one at a time.
pub trait Responder {
    /// A relation of the state before some lines, the state after them, the lines, and the text
    /// that answered them.
    ghost past: { Self → Self → List (List ℕ) → List ℕ → Type 0 };

    /// Replies to a line. Its bytes after the first 81 make no difference.
    ///
    /// If the writer fails, it took a prefix of the buffered bytes and the reply.
    fn reply_to<O: Output>(&mut self, line: &[u8], out: &mut O) -> Result<(), Failed>
        ensures { LineIsAnswered (λ opened. past opened self.old)
            (λ opened. past opened self.new) line.now
            (Puts result (O.out out.old) (O.out out.new)) };
}

/// Why a run over lines stopped.
#[derive(Clone, Copy, Debug, PartialEq, Eq)]
pub enum StreamFault {
    /// The reader failed.
    Read,
    /// The writer failed.
    Write,
}

/// Replies to all lines of the reader, in order. Costs a step for each byte that is read, and the
/// cost of the replies.
///
/// Faults: `Read` if the reader failed; `Write` if the writer failed.
///
/// Every reply to the lines that were read is written before the next read. So a run that a failed
/// read stops has replied to the lines that were read completely. If a write failed, a prefix of
/// the replies to such lines was written. No line gets its reply before its end, or that of the
/// input, was read.
pub fn run<A: Responder, R: Source, W: Sink>(
    responder: &mut A,
    reader: &mut R,
    writer: &mut W,
) -> Result<(), StreamFault>
    ensures { A.past responder.old responder.old [] []
        → RunsThrough result (A.past responder.old responder.new)
        (ends_of (R.incoming reader.old) (W.outgoing writer.old))
        (ends_of (R.incoming reader.new) (W.outgoing writer.new)) }
{
    let mut out = BlockWriter::new(writer);
    run_through(responder, reader, &mut out)
}

/// Answers all lines of the reader, through an output without buffered bytes.
fn run_through<A: Responder, R: Source, O: Output>(
    responder: &mut A,
    reader: &mut R,
    out: &mut O,
) -> Result<(), StreamFault>
    requires { (O.out out.old).waiting ≡ [] }
    ensures ran { A.past responder.old responder.old [] []
        → RunsThrough result (A.past responder.old responder.new)
        (ends_of (R.incoming reader.old) (O.out out.old).writer)
        (ends_of (R.incoming reader.new) (O.out out.new).writer) }
    ensures same { (O.out out.new).name ≡ (O.out out.old).name }
{
    let mut line = LineBuffer::new();
    let mut block = [0; BLOCK];
    // Each turn reads at least a byte, so these turns suffice.
    for _turn in 0..u64::MAX {
        let read = match reader.read(&mut block) {
            Ok(read) => read,
            Err(Failed) => return Err(StreamFault::Read),
        };
        if read == 0 {
            return match finish(responder, &line, out) {
                Ok(()) => Ok(()),
                Err(Failed) => Err(StreamFault::Write),
            };
        }
        let (piece, _) = block.split_at(read);
        match take_piece(responder, &mut line, piece, out) {
            Ok(()) => {}
            Err(Failed) => return Err(StreamFault::Write),
        }
    }
    Err(StreamFault::Read)
}

/// Answers a last line without an end, and writes the buffered bytes.
fn finish<A: Responder, O: Output>(
    responder: &mut A,
    line: &LineBuffer,
    out: &mut O,
) -> Result<(), Failed>
    ensures goes { (opened : A) (start : Out) (bytes : List ℕ)
        → Underway (A.past opened responder.old) start (O.out out.old) line.now bytes
        → LinesAreAnswered (A.past opened responder.new) (lines_of bytes)
        (Puts result start (O.out out.new)) }
    ensures empty { OnOk result ((O.out out.new).waiting ≡ []) }
    ensures same { (O.out out.new).name ≡ (O.out out.old).name }
{
    if line.is_empty() {
        return out.flush();
    }
    responder.reply_to(line.as_slice(), out)?;
    out.flush()
}

/// Takes a part of the input, and writes the replies to the lines that it ends.
fn take_piece<A: Responder, O: Output>(
    responder: &mut A,
    line: &mut LineBuffer,
    piece: &[u8],
    out: &mut O,
) -> Result<(), Failed>
    ensures goes { (opened : A) (start : Out) (bytes : List ℕ)
        → Underway (A.past opened responder.old) start (O.out out.old) line.old bytes
        → GoesOn result (A.past opened responder.new) start (O.out out.new) line.new
        (bytes ++ piece.now) }
    ensures empty { OnOk result ((O.out out.new).waiting ≡ []) }
    ensures same { (O.out out.new).name ≡ (O.out out.old).name }
{
    take_lines(responder, line, piece, out)?;
    out.flush()
}

/// Takes a part of the input: answers the lines that it ends, and keeps the rest as the unfinished
/// line.
fn take_lines<A: Responder, O: Output>(
    responder: &mut A,
    line: &mut LineBuffer,
    piece: &[u8],
    out: &mut O,
) -> Result<(), Failed>
    ensures goes { (opened : A) (start : Out) (bytes : List ℕ)
        → Underway (A.past opened responder.old) start (O.out out.old) line.old bytes
        → GoesOn result (A.past opened responder.new) start (O.out out.new) line.new
        (bytes ++ piece.now) }
    ensures same { (O.out out.new).name ≡ (O.out out.old).name }
{
    let mut rest = piece;
    while let Some((front, behind)) = split_at_line_end(rest) {
        end_line(responder, line, front, out)?;
        rest = behind;
    }
    line.extend(rest);
    Ok(())
}

/// Returns the bytes before the first line end, and those behind it; none if no line ends.
fn split_at_line_end(bytes: &[u8]) -> Option<(&[u8], &[u8])>
    ensures none { IfNone result (All (λ b. b ≢ 10) bytes.now) }
    ensures some { IfSome result (λ parts. bytes.now ≡ parts.0.now ++ 10 ∷ parts.1.now) }
    ensures front { IfSome result (λ parts. All (λ b. b ≢ 10) parts.0.now) }
{
    let end = memchr::memchr(b'\n', bytes)?;
    let (front, behind) = bytes.split_at(end);
    Some((front, behind.split_at(1).1))
}

/// Ends the unfinished line with these bytes, and answers it.
fn end_line<A: Responder, O: Output>(
    responder: &mut A,
    line: &mut LineBuffer,
    front: &[u8],
    out: &mut O,
) -> Result<(), Failed>
    ensures goes { (opened : A) (lines : List (List ℕ)) (text begun : List ℕ)
        → A.past opened responder.old lines text → line.old ≡ kept_of begun
        → OneMoreIsAnswered (A.past opened responder.new) lines text (begun ++ front.now)
        (Puts result (O.out out.old) (O.out out.new)) }
    ensures empty { OnOk result (line.new ≡ []) }
    ensures same { (O.out out.new).name ≡ (O.out out.old).name }
{
    if line.is_empty() {
        return responder.reply_to(front, out);
    }
    line.extend(front);
    responder.reply_to(line.as_slice(), out)?;
    line.clear();
    Ok(())
}

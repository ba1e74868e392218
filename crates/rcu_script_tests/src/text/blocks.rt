//! Output through a block.

use arrayvec::ArrayVec;
use rcu_text::{BlockWriter, Marked, Output, put_line, put_numbered};
use std::alloc::{AllocError, Global};
use std::test::Fail;

/// How many bytes 500 times a line of 13 bytes are: more than a block.
const MANY: usize = 6_500;

/// Room for all bytes, made by a second call if the first is refused memory.
fn room(alloc: Global) -> Result<Vec<u8>, AllocError> {
    match Vec::with_capacity(alloc, MANY) {
        Ok(taken) => Ok(taken),
        Err(_) => Vec::with_capacity(alloc, MANY),
    }
}

/// Writes two lines 500 times, through a block and to the expected bytes.
fn write_many<O: Output>(out: &mut O, wanted: &mut ArrayVec<u8, MANY>) -> Result<(), Fail> {
    for _ in 0..500 {
        wanted.try_extend_from_slice(b"grace 12\nrcu\n")?;
        put_numbered(out, b"grace ", 12)?;
        put_line(out, b"rcu\n")?;
    }
    out.flush()?;
    Ok(())
}

#[test]
fn more_than_a_block(rt: HostRuntime) -> Result<(), Fail> {
    let mut wanted = ArrayVec::<u8, MANY>::new();
    let mut sink = Marked::new(room(rt.alloc())?);
    write_many(&mut BlockWriter::new(&mut sink), &mut wanted)?;
    assert_eq!(rt; sink.into_inner().as_slice(), wanted.as_slice());
    Ok(())
}

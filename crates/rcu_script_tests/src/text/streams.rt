use rcu_text::{Failed, Marked, Sink, Source};
use std::io;
use std::io::{Read, Write};
use std::process::Abort;

/// Fails at each read, and takes nothing at each write.
#[derive(Drop)]
struct Broken;

impl Read for Broken {
    fn read(&mut self, _buf: &mut [u8]) -> io::Result<usize> {
        Err(io::Error::from(io::ErrorKind::Interrupted))
    }
}

impl Write for Broken {
    fn write(&mut self, _bytes: &[u8]) -> io::Result<usize> {
        Ok(0)
    }

    fn flush(&mut self) -> io::Result<()> {
        Ok(())
    }
}

/// Compares the answer of a read into 4 bytes. The source has failed if the read does.
fn read_four<R: Source>(rt: &impl Abort, source: &mut R, wanted: Result<usize, Failed>) {
    assert_eq!(rt; source.read(&mut [0; 4]), wanted);
    assert_eq!(rt; source.has_failed(), wanted.is_err());
}

/// Compares what a write answers, and whether the sink has failed then.
fn write_to<W: Sink>(
    rt: &impl Abort,
    sink: &mut W,
    bytes: &[u8],
    wanted: Result<usize, Failed>,
    has_failed: bool,
) {
    assert_eq!(rt; sink.write(bytes), wanted);
    assert_eq!(rt; sink.has_failed(), has_failed);
}

#[test]
fn a_reader_is_read_to_its_end(rt: HostRuntime) {
    let mut source = Marked::new("grace".as_bytes());
    read_four(&rt, &mut source, Ok(4));
    read_four(&rt, &mut source, Ok(1));
    read_four(&rt, &mut source, Ok(0));
}

#[test]
fn an_interrupted_read_is_a_failure(rt: HostRuntime) {
    read_four(&rt, &mut Marked::new(Broken), Err(Failed));
}

#[test]
fn a_write_that_takes_nothing_is_a_failure(rt: HostRuntime) {
    let mut sink = Marked::new(Broken);
    write_to(&rt, &mut sink, b"", Ok(0), false);
    write_to(&rt, &mut sink, b"grace", Err(Failed), true);
    write_to(&rt, &mut sink, b"", Ok(0), true);
}

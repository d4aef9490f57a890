//! A source and a sink of memory, of which is noted how much was written whenever something is read.
ghost use Rattle.std.specs.Prelude.{◌≡◌};

use msr_devices::{Sink, Source, TestSink, TestSource};
use std::alloc::{AllocError, Global};
use std::cell::Cell;
use std::io;

/// A sink, and how many bytes it was given.
#[derive(Drop)]
pub struct NotedSink<'a> {
    sink: TestSink,
    written: &'a Cell<usize>,
}

impl<'a> NotedSink<'a> {
    pub fn new(sink: TestSink, written: &'a Cell<usize>) -> NotedSink<'a>
        ensures { ⟦<NotedSink<'a> as Sink>⟧.device result ≡ ⟦<TestSink as Sink>⟧.device sink }
    {
        NotedSink { sink, written }
    }

    /// The bytes that it holds.
    pub fn bytes(&self) -> &[u8] {
        self.sink.bytes()
    }
}

impl Sink for NotedSink<'_> {
    ghost device = { λ noted. noted.sink };

    fn write(&mut self, buf: &[u8]) -> io::Result<usize> {
        let result = self.sink.write(buf);
        self.written.set(self.sink.bytes().len());
        result
    }
}

/// A source, and how many bytes the sink had at each read of it.
#[derive(Drop)]
pub struct NotedSource<'a> {
    source: TestSource<'a>,
    written: &'a Cell<usize>,
    at_reads: Vec<usize>,
}

impl<'a> NotedSource<'a> {
    pub fn new(alloc: Global, source: TestSource<'a>, written: &'a Cell<usize>) -> NotedSource<'a>
        ensures { ⟦<NotedSource<'a> as Source>⟧.device result ≡ ⟦<TestSource<'a> as Source>⟧.device source.entry }
    {
        NotedSource {
            source,
            written,
            at_reads: Vec::new(alloc),
        }
    }

    /// The line of these numbers, after a word.
    pub fn line(&self, alloc: Global) -> Result<String, AllocError> {
        let mut line = String::from_str(alloc, "reads")?;
        for count in self.at_reads.as_slice() {
            line.push_str(format!(in alloc; " {count}")?.as_str())?;
        }
        line.push_str("\n")?;
        Ok(line)
    }
}

impl Source for NotedSource<'_> {
    ghost device = { λ noted. noted.source };

    fn read(&mut self, buf: &mut [u8]) -> io::Result<usize> {
        self.at_reads.push(self.written.get()).ok();
        self.source.read(buf)
    }
}

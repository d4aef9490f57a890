//! msr_devices: what devices do, which no clause says: how a test device plays, how large the
//! pieces are, and each call once.
ghost use Rattle.msr_devices.specs.Device.{CanCountCall, CountsFew};

use crate::facts::{expect_all, is_text};
use msr_devices::{
    Behavior, DeviceFailed, DeviceFault, FromRead, FromWrite, ReadBuffer, Sink, Source, TestSink,
    TestSource, WriteBuffer, read_some, write_all, write_some,
};
use msr_fixtures::expect;
use std::alloc::Global;
use std::io;
use std::io::{Read, Write};
use std::test::Fail;

const TEXT: &[u8] = b"thirteen bytes";

/// How many bytes a device moves in a call, how many interruptions come before each, which call fails, and how many
/// bytes of the text it has moved then.
type Played = (usize, u32, Option<u64>, usize);

/// What holds of a source and of a sink.
const BOTH: &[(&str, Played)] = &[
    ("all in one call", (64, 0, None, 14)),
    ("one byte in a call", (1, 0, None, 14)),
    ("63 interruptions", (1, 63, None, 14)),
    ("63 interruptions before 5 bytes", (5, 63, None, 14)),
    ("64 interruptions", (1, 64, None, 0)),
    ("the first call fails", (1, 0, Some(0), 0)),
    ("interruptions and a failure", (1, 63, Some(7), 7)),
    ("the last byte fails", (1, 0, Some(13), 13)),
    ("a failure after the last byte", (1, 0, Some(14), 14)),
];

fn behavior(most: usize, interruptions: u32, fails_at: Option<u64>) -> Behavior {
    Behavior {
        most,
        interruptions,
        fails_at,
    }
}

/// Fails with the number of a call.
fn fail_at(call: u64) -> Result<(), Fail> {
    Err(Fail::new(format_args!("call {call} fails")))
}

/// The bytes are so many as the text begins with.
fn is_begin(bytes: &[u8], count: usize) -> bool {
    bytes.len() == count && TEXT.starts_with(bytes)
}

/// A buffer is filled from a source that plays so.
fn fills(alloc: Global, row: Played) -> bool {
    let (most, interruptions, fails_at, came) = row;
    let mut source = TestSource::new(TEXT, behavior(most, interruptions, fails_at));
    let mut buffer = ReadBuffer::new(alloc);
    let expected = if came < 14 {
        Err(DeviceFault::Failed)
    } else {
        Ok(())
    };
    (buffer.fill(&mut source, 14) == expected) & is_begin(buffer.bytes(), came)
}

#[test]
fn sources_play_their_behavior(rt: HostRuntime) -> Result<(), Fail> {
    for (name, row) in BOTH {
        if !fills(rt.alloc(), *row) {
            return expect(false, name);
        }
    }
    expect(fills(rt.alloc(), (0, 0, None, 14)), "0 stands for 1")
}

/// A sink takes so many bytes of the text.
fn takes(mut sink: TestSink, held: usize) -> bool
    requires { CanCountCall (⟦<TestSink as Sink>⟧.device sink) }
{
    let written = write_all(&mut sink, TEXT).is_ok();
    (written == (held == 14)) & is_begin(sink.bytes(), held)
}

/// A sink that fails by an error, and one that fails by accepting nothing, take the text so.
fn both_take(alloc: Global, row: Played) -> bool {
    let (most, interruptions, fails_at, held) = row;
    let behavior = behavior(most, interruptions, fails_at);
    let failing = takes(TestSink::new(Vec::new(alloc), behavior), held);
    let idle = takes(TestSink::accepting_nothing(Vec::new(alloc), behavior), held);
    failing & idle
}

#[test]
fn sinks_play_their_behavior(rt: HostRuntime) -> Result<(), Fail> {
    for (name, row) in BOTH {
        if !both_take(rt.alloc(), *row) {
            return expect(false, name);
        }
    }
    expect(
        both_take(rt.alloc(), (5, 0, Some(2), 10)),
        "the third call fails",
    )
}

/// A buffer is filled with so many bytes, and then holds these.
fn holds<'a>(
    buffer: &mut ReadBuffer,
    source: &mut TestSource<'a>,
    want: usize,
    bytes: &[u8],
) -> bool
    requires { CanCountCall (⟦<TestSource<'a> as Source>⟧.device source.old) }
    ensures { CountsFew (⟦<TestSource<'a> as Source>⟧.device source.old)
        (⟦<TestSource<'a> as Source>⟧.device source.new) }
{
    let filled = buffer.fill(source, want).is_ok();
    filled & (buffer.bytes() == bytes)
}

/// After the failure of that call the bytes before it are there, and the next call goes on to the end.
fn goes_on(alloc: Global, fails_at: u64) -> bool {
    let mut source = TestSource::new(TEXT, behavior(1, 0, Some(fails_at)));
    let mut buffer = ReadBuffer::new(alloc);
    let failed = buffer.fill(&mut source, 20) == Err(DeviceFault::Failed);
    let came = buffer.bytes().len() as u64 == fails_at;
    let ended = buffer.has_ended();
    let whole = holds(&mut buffer, &mut source, 20, TEXT);
    failed & came & !ended & whole & buffer.has_ended()
}

#[test]
fn a_failure_is_not_the_end(rt: HostRuntime) -> Result<(), Fail> {
    for call in 0..15 {
        if !goes_on(rt.alloc(), call) {
            return fail_at(call);
        }
    }
    Ok(())
}

#[test]
fn a_window_moves_on(rt: HostRuntime) -> Result<(), Fail> {
    let mut source = TestSource::new(TEXT, behavior(4, 1, None));
    let mut buffer = ReadBuffer::new(rt.alloc());
    let first = holds(&mut buffer, &mut source, 3, b"thir");
    if buffer.bytes().len() < 2 {
        return expect(false, "four bytes");
    }
    buffer.consume(2);
    let fewer = buffer.bytes() == b"ir".as_slice();
    let more = holds(&mut buffer, &mut source, 8, b"irteen byt") & !buffer.has_ended();
    expect_all(&[
        (first, "four bytes"),
        (fewer, "two bytes fewer"),
        (more, "eight bytes more"),
    ])
}

/// The text waits, which is too little for a piece. After the failure of that call what was not written waits, and the
/// next call writes it.
fn writes_on(alloc: Global, fails_at: u64) -> bool {
    let behavior = behavior(1, 0, Some(fails_at));
    let mut sink = TestSink::accepting_nothing(Vec::new(alloc), behavior);
    let mut buffer = WriteBuffer::new(alloc);
    let added = buffer.bytes.extend_from_slice(TEXT).is_ok();
    let waits = buffer.flush_full(&mut sink).is_ok() & sink.bytes().is_empty();
    let failed = buffer.flush(&mut sink).is_err();
    let whole = sink.bytes().len().saturating_add(buffer.bytes.len()) == 14;
    let written = buffer.flush(&mut sink).is_ok() & (sink.bytes() == TEXT);
    added & waits & failed & whole & written
}

#[test]
fn what_was_not_written_waits(rt: HostRuntime) -> Result<(), Fail> {
    for call in 0..14 {
        if !writes_on(rt.alloc(), call) {
            return fail_at(call);
        }
    }
    Ok(())
}

/// A reader and a writer that note the least room and the least piece, and move all of each.
#[derive(Drop)]
struct Noted {
    least: usize,
}

impl Read for Noted {
    fn read(&mut self, buf: &mut [u8]) -> io::Result<usize> {
        self.least = self.least.min(buf.len());
        Ok(buf.len())
    }
}

impl Write for Noted {
    fn write(&mut self, buf: &[u8]) -> io::Result<usize> {
        self.least = self.least.min(buf.len());
        Ok(buf.len())
    }

    fn flush(&mut self) -> io::Result<()> {
        Ok(())
    }
}

/// A reader is given large rooms for that many bytes, which come, and then for 100000.
fn has_large_rooms(alloc: Global, want: usize) -> bool {
    let mut noted = Noted { least: usize::MAX };
    let mut source = FromRead::new(&mut noted);
    let mut buffer = ReadBuffer::new(alloc);
    let first = buffer.fill(&mut source, want).is_ok();
    if buffer.bytes().len() < want {
        return false;
    }
    buffer.consume(want);
    let second = buffer.fill(&mut source, 100_000).is_ok();
    first & second & (noted.least >= 65_536)
}

/// How many bytes are wanted, with a name.
const WANTED: &[(&str, usize)] = &[
    ("1 byte", 1),
    ("512 bytes", 512),
    ("4096 bytes", 4096),
    ("65536 bytes", 65_536),
    ("100000 bytes", 100_000),
];

#[test]
fn rooms_are_large(rt: HostRuntime) -> Result<(), Fail> {
    for (name, want) in WANTED {
        if !has_large_rooms(rt.alloc(), *want) {
            return expect(false, name);
        }
    }
    Ok(())
}

/// Bytes wait for a piece of 65536.
#[test]
fn pieces_are_large(rt: HostRuntime) -> Result<(), Fail> {
    let mut noted = Noted { least: usize::MAX };
    let mut sink = FromWrite::new(&mut noted);
    let mut buffer = WriteBuffer::new(rt.alloc());
    let mut done = buffer.bytes.resize(65_535, 7).is_ok();
    done &= buffer.flush_full(&mut sink).is_ok();
    done &= buffer.bytes.push(7).is_ok();
    done &= buffer.flush_full(&mut sink).is_ok();
    expect(done & (noted.least == 65_536), "the least piece")
}

#[test]
fn readers_of_std() -> Result<(), Fail> {
    let mut source = FromRead::new(TEXT);
    let mut bytes = [0; 20];
    let read = read_some(&mut source, &mut bytes) == Ok(14);
    expect(read & bytes.starts_with(TEXT), "a slice")
}

#[test]
fn writers_of_std(rt: HostRuntime) -> Result<(), Fail> {
    let mut held = Vec::new(rt.alloc());
    let mut sink = FromWrite::new(&mut held);
    let written = write_some(&mut sink, TEXT) == Ok(14);
    expect(written & (held.as_slice() == TEXT), "a vector")
}

#[test]
fn texts_of_failures(rt: HostRuntime) -> Result<(), Fail> {
    let (failed, memory) = (DeviceFault::Failed, DeviceFault::Memory);
    let texts = format!(in rt.alloc(); "{DeviceFailed}, {failed}, {memory}");
    let expected = "the device failed, the device failed, out of memory";
    expect(is_text(texts, expected), "texts")
}

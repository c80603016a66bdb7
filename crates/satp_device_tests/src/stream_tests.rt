ghost use Rattle.std.specs.Prelude.{◌≡◌, false};

use satp_base::{Sink, SinkFault, Source, SourceFault};
use satp_memory::{MemSink, MemSource};
use std::alloc::Global;

/// What a read answers, and which bytes it leaves.
type ReadInto = (Result<usize, SourceFault>, [u8; 4]);

/// Two reads into the same bytes, of which the second finds the end or fails, or else a third one; and the counts of calls and of wants.
type Reads = ([Option<ReadInto>; 3], u64, u64);

/// A read after one that found no end, if there was one.
fn read_after(source: &mut MemSource, before: ReadInto) -> Option<ReadInto>
    requires { source.old.over ≡ false }
{
    let mut into = before.1;
    let answer = source.read(&mut into);
    Some((answer, into))
}

fn read_twice(source: &mut MemSource) -> [Option<ReadInto>; 3]
    requires { source.old.over ≡ false }
{
    let mut into = [0; 4];
    match source.read(&mut into) {
        Ok(4) => {
            let first = (Ok(4), into);
            match source.read(&mut into) {
                Ok(2) => {
                    let second = (Ok(2), into);
                    [Some(first), Some(second), read_after(source, second)]
                }
                answer => [Some(first), Some((answer, into)), None],
            }
        }
        answer => [Some((answer, into)), None, None],
    }
}

/// The reads of a new source of six bytes, of which that of this number is to fail.
fn reads_of_a_new_source(alloc: Global, call: u64) -> Option<Reads> {
    let mut source = MemSource::new(alloc, b"abcdef").ok()?;
    source.fail(call).ok()?;
    let answers = read_twice(&mut source);
    Some((answers, source.count(), source.wants()))
}

/// A source that has ended or failed isn't read again.
#[test]
fn a_source_gives_its_bytes_in_order_until_it_fails(rt: HostRuntime) {
    let first = Some((Ok(4), *b"abcd"));
    let second = Some((Ok(2), *b"efcd"));
    for (call, answers, count) in [
        (1, [Some((Err(SourceFault), [0; 4])), None, None], 1),
        (2, [first, Some((Err(SourceFault), *b"abcd")), None], 2),
        (3, [first, second, Some((Err(SourceFault), *b"efcd"))], 3),
        (4, [first, second, Some((Ok(0), *b"efcd"))], 3),
    ] {
        assert!(rt;
            reads_of_a_new_source(rt.alloc(), call) == Some((answers, count, 0)),
            "{call}"
        );
    }
}

/// What a write answers, whether the bytes that the sink then has are those of its writes that were answered, and the counts of calls and of wants.
type Writes = ([Option<Result<usize, SinkFault>>; 2], bool, u64, u64);

/// A write, and another one after a write that was answered.
fn write_twice(sink: &mut MemSink) -> [Option<Result<usize, SinkFault>>; 2]
    requires { sink.old.failed ≡ false }
{
    match sink.write(b"abc") {
        Ok(count) => [Some(Ok(count)), Some(sink.write(b"d"))],
        Err(fault) => [Some(Err(fault)), None],
    }
}

/// The writes to a new sink, of which that of this number is to fail.
fn writes_to_a_new_sink(alloc: Global, call: u64, taken: &[u8]) -> Option<Writes> {
    let mut sink = MemSink::new(alloc).ok()?;
    sink.fail(call).ok()?;
    let answers = write_twice(&mut sink);
    let kept = sink.bytes() == taken;
    Some((answers, kept, sink.count(), sink.wants()))
}

/// A sink that failed isn't written to again.
#[test]
fn a_sink_keeps_what_it_takes_until_it_fails(rt: HostRuntime) {
    let failed = Some(Err(SinkFault));
    let rows: [(u64, [Option<Result<usize, SinkFault>>; 2], &[u8], u64); 3] = [
        (1, [failed, None], b"", 1),
        (2, [Some(Ok(3)), failed], b"abc", 2),
        (3, [Some(Ok(3)), Some(Ok(1))], b"abcd", 2),
    ];
    for (call, answers, taken, count) in rows {
        assert!(rt;
            writes_to_a_new_sink(rt.alloc(), call, taken) == Some((answers, true, count, 0)),
            "{call}"
        );
    }
}

// Readers and sinks over devices that fail, and sinks that hold bytes back.
use gz_io::{
    Buffered, LineReader, MemSink, MemSource, Next, Sink, Source, SureSink, SureSource, write_all,
};
use std::process::Abort;
use std::test::Fail;

const TRACE: &[u8] = b"zone\n\ncomp 0\nnew r0 0 1\nlast";

// Reads a trace in pieces, where the source fails at some calls, and counts the faults.
fn read_trace<S: Source>(rt: &impl Abort, source: &mut S) -> Result<u64, Fail> {
    let mut reader = LineReader::new();
    let mut faults = 0u64;
    let wanted: [&[u8]; 5] = [b"zone", b"", b"comp 0", b"new r0 0 1", b"last"];
    for line in wanted {
        let mut next = reader.next(source);
        if next == Next::ReadFault {
            faults = faults.saturating_add(1);
            next = reader.next(source);
        }
        assert_eq!(rt; next, Next::Line(line.len()));
        assert_eq!(rt; reader.line(), line);
    }
    let mut end = reader.next(source);
    if end == Next::ReadFault {
        faults = faults.saturating_add(1);
        end = reader.next(source);
    }
    assert_eq!(rt; end, Next::End);
    assert_eq!(rt; reader.next(source), Next::End);
    assert!(rt; !reader.has_line());
    Ok(faults)
}

#[test]
fn reading_goes_on_after_a_fault(rt: HostRuntime) -> Result<(), Fail> {
    assert_eq!(rt; read_trace(&rt, &mut SureSource::new(TRACE, 1))?, 0);
    // Twenty-eight calls give a byte each, three find the end, and one fails.
    for call in 0..30u64 {
        let failing = [call];
        let mut source = MemSource::new(TRACE, 1, &failing);
        assert_eq!(rt; read_trace(&rt, &mut source)?, 1);
        assert_eq!(rt; source.calls(), 32);
    }
    Ok(())
}

#[test]
fn a_sure_sink_counts_what_it_takes(rt: HostRuntime) -> Result<(), Fail> {
    let mut sure = SureSink::new(4);
    assert!(rt; write_all(&mut sure, b"collected\n").is_ok());
    assert_eq!(rt; sure.count(), 10);
    Ok(())
}

#[test]
fn buffered_bytes_come_through(rt: HostRuntime) -> Result<(), Fail> {
    let piece = [b'y'; 5000];
    let mut sink = Buffered::new(MemSink::new(Vec::new(rt.alloc()), 3000, &[1]));
    assert!(rt; write_all(&mut sink, &piece).is_ok());
    assert_eq!(rt; sink.inner().bytes().len(), 0);
    // The second call for the first 8,192 bytes fails, and the rest of them stays.
    assert!(rt; write_all(&mut sink, &piece).is_err());
    assert_eq!(rt; sink.inner().bytes().len(), 3000);
    assert!(rt; sink.flush().is_ok());
    assert_eq!(rt; sink.inner().bytes().len(), 8192);
    assert!(rt; write_all(&mut sink, b"end").is_ok());
    assert!(rt; sink.flush().is_ok());
    assert_eq!(rt; sink.inner().bytes().len(), 8195);
    assert!(rt; sink.inner().bytes().ends_with(b"end"));
    Ok(())
}

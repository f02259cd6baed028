// Texts that no trace shows: of exits, of replies that no line of the language gets, and of the largest numbers.
use gz_io::MemSink;
use gz_names::{CompNo, Name, NameList, Names64, Reply, Report, ZoneSet};
use std::test::Fail;
use trace_cli::Exit;
use trace_lang::{write_reply, write_report};

#[test]
fn statuses_and_texts(rt: HostRuntime) -> Result<(), Fail> {
    let ends = [
        (Exit::Done, 0u8, ""),
        (
            Exit::Usage,
            2,
            "gczone: usage: gczone run [--helpers N] [--markers M] | gczone storm SEED LINES [--helpers N] \
            | gczone check",
        ),
        (Exit::BadLine(7), 3, "gczone: line 7: bad line"),
        (Exit::ReadFault, 4, "gczone: read failed"),
        (Exit::WriteFault, 5, "gczone: write failed"),
        (Exit::NoMemory, 6, "gczone: out of memory"),
        (Exit::TooManyLines, 7, "gczone: too many lines"),
        (Exit::Unsound, 8, ""),
    ];
    for (exit, status, text) in ends {
        assert_eq!(rt; exit.status(), status);
        let printed = format!(in rt.alloc(); "{exit}")?;
        assert_eq!(rt; printed.as_str(), text);
    }
    Ok(())
}

#[test]
fn texts_of_replies(rt: HostRuntime) -> Result<(), Fail> {
    let replies: [(Reply, &[u8]); 3] = [
        (Reply::Sliced(u64::MAX), b"slice 18446744073709551615\n"),
        (Reply::ResetDone, b"reset ok\n"),
        (Reply::Compacted(65, 1), b"compacted 65 1\n"),
    ];
    for (reply, text) in &replies {
        let mut sink = MemSink::new(Vec::new(rt.alloc()), 4096, &[]);
        assert!(rt; write_reply(&mut sink, reply).is_ok());
        assert_eq!(rt; sink.bytes(), *text);
    }
    Ok(())
}

// The names 7, 12 and 2:7, in the order of lists.
fn three_names(rt: &HostRuntime) -> Result<NameList, Fail> {
    let mut names = NameList::new(rt.alloc());
    names.push(Name::Cell(7))?;
    names.push(Name::Cell(12))?;
    names.push(Name::Wrap(CompNo(2), 7))?;
    Ok(names)
}

// The first zone and the last end, and three cells that are watched died.
fn ended_with_deaths(rt: &HostRuntime) -> Result<Report, Fail> {
    let zones = ZoneSet { bits: 1 | 1 << 63 };
    Ok(Report::Ended(zones, NameList::new(rt.alloc()), three_names(rt)?))
}

#[test]
fn texts_of_reports(rt: HostRuntime) -> Result<(), Fail> {
    let mut freed = Names64::new();
    freed.push(Name::Wrap(CompNo(255), 4294967295));
    let reports: [(Report, &[u8]); 4] = [
        (Report::Started, b"started\n"),
        (Report::Stopped(ZoneSet { bits: 0b11 }), b"stopped 0 1\n"),
        (
            Report::Swept(4294967295, freed),
            b"swept 4294967295 255:4294967295\n",
        ),
        (
            ended_with_deaths(&rt)?,
            b"ended 0 63 gray -\ntold 7 12 2:7\n",
        ),
    ];
    for (report, text) in &reports {
        let mut sink = MemSink::new(Vec::new(rt.alloc()), 4096, &[]);
        assert!(rt; write_report(&mut sink, report).is_ok());
        assert_eq!(rt; sink.bytes(), *text);
    }
    Ok(())
}

// Sixty-four names of five digits are one piece, a thousand names are several.
#[test]
fn long_lists_go_out_in_pieces(rt: HostRuntime) -> Result<(), Fail> {
    let mut names = NameList::new(rt.alloc());
    for n in 0..1000u64 {
        names.push(Name::Cell(n))?;
    }
    let mut sink = MemSink::new(Vec::new(rt.alloc()), 4096, &[]);
    assert!(rt; write_reply(&mut sink, &Reply::Gray(names)).is_ok());
    // A word of four bytes, ten numbers of one digit, ninety of two, nine hundred of three, each
    // behind a space, and a line feed.
    assert_eq!(rt; sink.bytes().len(), 4 + 10 * 2 + 90 * 3 + 900 * 4 + 1);
    assert!(rt; sink.bytes().ends_with(b" 998 999\n"));
    let mut few = NameList::new(rt.alloc());
    for n in 0..64u64 {
        few.push(Name::Cell(10000 + n))?;
    }
    let mut one = MemSink::new(Vec::new(rt.alloc()), 4096, &[]);
    assert!(rt; write_reply(&mut one, &Reply::Gray(few)).is_ok());
    assert_eq!(rt; one.bytes().len(), 4 + 64 * 6 + 1);
    assert_eq!(rt; one.calls(), 1);
    Ok(())
}

// The program: a transcript on standard input, its verdict on standard output.
//
// A transcript is a trace with the lines that a collector answered: each line of the trace behind `> `, and after it
// its answer. The verdict is `lawful`, or `at line N: KIND` for the first line that no lawful collector could have
// written there. docs/CONFORMANCE.md tells how to come by a transcript, and what each kind means.
#![tactic(auto)]

use gz_io::{StdSink, StdSource};
use judge::judge;
use std::process::ExitCode;

fn main(rt: HostRuntime) -> ExitCode {
    let mut source = StdSource::new(rt.stdin());
    let mut sink = StdSink::new(rt.stdout());
    let end = judge(rt.alloc(), &mut source, &mut sink);
    if !end.is_verdict() {
        let _ = eprintln!(rt; "{end}");
    }
    ExitCode::from(end.status())
}

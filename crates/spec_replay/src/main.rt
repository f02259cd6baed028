// The program: a trace on standard input, the specification's answers on standard output.
//
// [gczone] The specification, run
//
// `step` and `closure` of plain_graph are plain programs that equal the definitions. This program
// answers a trace by them, on a graph from which nothing is ever removed:
//
//     a command on the graph      its reply, as `gczone run` writes it
//     colours                     `black LIST`, what the registers reach, and `live LIST`, what the
//                                 registers and the gray slots reach, in the graph as it is now
//     gc, slice, finish, collect  nothing: a collection changes no reply
//
// So whoever has a collector of their own can run both on one trace. Every reply has to be the same.
// If all zones were collected just before a `colours`, what is live and not black has to be gray there.
//
// `replay` is proved over any source and sink: it answers each line as the definitions say, in order,
// until the input ends or a line is none of the language. tools/check-step compares it with another
// model, or with a collector, on random traces.
#![tactic(auto)]

mod answer;
mod reached;
mod reading;

use crate::reading::replay;
use gz_io::{StdSink, StdSource};
use std::process::ExitCode;

fn main(rt: HostRuntime) -> ExitCode {
    let mut source = StdSource::new(rt.stdin());
    let mut sink = StdSink::new(rt.stdout());
    let end = replay(rt.alloc(), &mut source, &mut sink);
    if !end.is_done() {
        let _ = eprintln!(rt; "{end}");
    }
    ExitCode::from(end.status())
}

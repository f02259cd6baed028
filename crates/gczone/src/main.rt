// The program: a trace on standard input, its answers on standard output; or a dump of colours, and its verdict.
//
// It hands the words of the command line and the standard streams to `replay`, whose contract says
// what is written and how a replay ends. The text of an exit goes to standard error, and its status
// is that of the program.
#![tactic(auto)]

use gz_io::{Buffered, FreeGate, StdSink, StdSource};
use std::env;
use std::io::ErrorKind;
use std::process::ExitCode;
use trace_cli::{Exit, Thresholds, replay};

// For each 1,024 arenas begun one helper at most starts: starting a thread takes longer than sweeping some hundred
// arenas. Two markers start where 16 cells are pending: a few lists leave nothing to share, and one marker follows them
// more quickly (our choice).
const THRESHOLDS: Thresholds = Thresholds {
    arenas_a_helper: 1_024,
    cells_for_two: 16,
};

// The arguments. Some that are no text are no words that the program takes.
fn arguments(rt: &HostRuntime) -> Result<Vec<String>, Exit> {
    match env::args(rt) {
        Ok(arguments) => arguments.collect(rt.alloc()).map_err(|_| Exit::NoMemory),
        Err(error) if error.kind() == ErrorKind::OutOfMemory => Err(Exit::NoMemory),
        Err(_) => Err(Exit::Usage),
    }
}

fn main(rt: HostRuntime) -> ExitCode {
    let alloc = rt.alloc();
    let mut source = StdSource::new(rt.stdin());
    let mut sink = Buffered::new(StdSink::new(rt.stdout()));
    let exit = match arguments(&rt) {
        Ok(arguments) => {
            let words: Result<Vec<&str>, _> = arguments
                .iter()
                .map(|word| word.as_str())
                .collect(alloc);
            match words {
                Ok(words) => replay(
                    &rt,
                    alloc,
                    words.as_slice(),
                    THRESHOLDS,
                    &mut source,
                    &mut sink,
                    &FreeGate,
                ),
                Err(_) => Exit::NoMemory,
            }
        }
        Err(exit) => exit,
    };
    if !matches!(exit, Exit::Done | Exit::Unsound) {
        let _ = eprintln!(rt; "{exit}");
    }
    ExitCode::from(exit.status())
}

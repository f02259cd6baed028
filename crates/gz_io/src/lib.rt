// What lies outside the program: where bytes come from, where they go, and the gate of helpers.
//
// [gczone] The outside
//
// A source has bytes that are still to come, a sink has bytes that were written, and each counts
// how often it failed. A body that is generic over them can't raise the count by itself. So the
// promise 'this fault comes only where the count rose' refuses a body that gives up on a line
// because it is hard, and then blames the device.
//
// Lines come out of bytes through one reader, however the bytes are cut into pieces:
//
//     source gives     "new r0 0", " 1\ndr", "op r0\n"
//     reader gives     Line "new r0 0 1", Line "drop r0", End
//
// It takes bytes only where it holds no whole line. A reader that took one piece more would wait
// for a peer that waits for the answer to the line that is held. For the same reason what a sink
// holds back is handed on before more input is asked for: `flush` leaves nothing behind.
//
// Of each device there are three forms: the real one (`StdSource`, `StdSink`), which tells no bytes
// and is trusted to be what it says; one in memory whose chosen calls fail (`MemSource`,
// `MemSink`); and one in memory that never fails (`SureSource`, `SureSink`). `Buffered` stands
// before any sink; `main` writes through a `Buffered<StdSink>`.
//
// A helper stops at a gate between its claim of an arena and its loads, and a marker before it tries a
// cell. The program's gate does nothing; a test's gate may wait there.
#![tactic(auto)]

mod buffered;
mod find;
mod gate;
mod memory;
mod outside;
mod reader;
mod standard;

pub use buffered::Buffered;
pub use gate::{FreeGate, Gate, Point};
pub use memory::{MemSink, MemSource, SureSink, SureSource};
pub use outside::{Failed, Sink, Source, WriteFault, write_all};
pub use reader::{LineReader, Next};
pub use standard::{StdSink, StdSource};

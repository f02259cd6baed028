// The commands of a trace that is read.
use crate::source::{CommandSource, NextCommand};
use gz_io::{LineReader, Next, Source};
use trace_lang::parse;

/// The commands that the lines of a source of bytes stand for.
#[derive(Drop)]
pub struct TraceSource<'s, S: Source> {
    pub reader: LineReader,
    pub source: &'s mut S,
}

impl<'s, S: Source> CommandSource for TraceSource<'s, S> {
    type Behind = S;

    ghost input = { λ t. record {
      held = t.reader.held;
      left = S.left t.source.now;
      faults = S.faults t.source.now;
    } };

    ghost behind = { λ t. t.source.now };

    ghost lender = { λ t. t.source.ghost_name };

    #[inline(always)]
    fn holds_line(&self) -> bool {
        self.reader.has_line()
    }

    #[inline(always)]
    fn next(&mut self) -> NextCommand {
        match self.reader.next(self.source) {
            Next::Line(_) => {}
            Next::End => return NextCommand::End,
            Next::TooLong => return NextCommand::BadLine,
            Next::NotAscii => return NextCommand::BadLine,
            Next::ReadFault => return NextCommand::ReadFault,
        }
        match parse(self.reader.line()) {
            Ok(command) => NextCommand::Command(command),
            Err(_) => NextCommand::BadLine,
        }
    }
}

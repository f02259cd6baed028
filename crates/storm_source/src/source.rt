// The commands of a storm, as a source.
ghost use Rattle.std.specs.Prelude.{◌≡◌, [], Some};
ghost use Rattle.storm_source.specs.Trace.{storm_text};

use crate::commands::{draw_command, head_command, tail_command};
use crate::generator::Generator;
use command_source::{CommandSource, NextCommand};
use std::marker::Model;

/// A source of the commands of a storm. It never fails, and takes no memory.
#[derive(Drop)]
pub struct StormSource {
    // how many commands before those that are drawn were given
    begun: u8,
    generator: Generator,
    // how many commands are not drawn yet
    lines: u32,
    // how many commands behind them were given
    ended: u8,
}

impl Model for StormSource {
    ghost use Rattle.std.specs.Prelude.{ℕ, List, ◌++◌, drop};
    ghost use Rattle.storm_source.specs.Trace.{drawn_lines, head_lines, tail_lines, text_of};

    // the text whose lines the commands still to come stand for
    ghost Value = { List ℕ };

    ghost view = { λ s. text_of (drop s.begun head_lines
        ++ (drawn_lines s.lines s.generator.state ++ drop s.ended tail_lines)) };
}

impl StormSource {
    /// The source of the storm with this seed and number of drawn lines. A seed of 2^31 or more draws what its
    /// remainder by 2^31 does.
    pub fn new(seed: u32, lines: u32) -> Self
        ensures { result ≡ storm_text seed lines }
    {
        StormSource {
            begun: 0,
            generator: Generator { state: seed },
            lines,
            ended: 0,
        }
    }
}

impl CommandSource for StormSource {
    type Behind = ();

    ghost input = { λ s. record { held = []; left = Some s; faults = 0 } };

    ghost behind = { λ _. tt };

    ghost lender = { λ _. 0 };

    fn holds_line(&self) -> bool {
        false
    }

    #[inline(always)]
    fn next(&mut self) -> NextCommand {
        if self.begun < 16 {
            let command = head_command(self.begun);
            self.begun += 1;
            return NextCommand::Command(command);
        }
        if self.lines > 0 {
            self.lines -= 1;
            return NextCommand::Command(draw_command(&mut self.generator));
        }
        if self.ended < 3 {
            let command = tail_command(self.ended);
            self.ended += 1;
            return NextCommand::Command(command);
        }
        NextCommand::End
    }
}

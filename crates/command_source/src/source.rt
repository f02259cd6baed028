// What a source of commands is.
ghost use Rattle.std.specs.Prelude.{◌≡◌, ◌≢◌, ◌↔◌, ℕ, Contains, IsTrue};
ghost use Rattle.gz_io.specs.Causes.{Rose};
ghost use Rattle.gz_io.specs.Lines.{IsPlain};
ghost use Rattle.command_source.specs.Giving.{GivesNext};
ghost use Rattle.command_source.specs.Input.{Input, IsUnread, to_come};

use gz_names::Cmd;

/// What a call for the next command answers.
#[derive(Clone, Copy, Debug, PartialEq, Eq)]
pub enum NextCommand {
    /// The next line stands for this command.
    Command(Cmd),
    /// The next line is outside the language. One that is too long or is no ASCII is not taken.
    BadLine,
    /// The trace is over.
    End,
    /// Reading failed. All bytes taken are kept, and the next call goes on.
    ReadFault,
}

/// Where the commands of a trace come from.
pub trait CommandSource {
    /// What the source reads from. Contracts alone see its values.
    type Behind;

    // what is still to come
    ghost input: { Self → Input };
    // what it reads from, as it stands
    ghost behind: { Self → Self.Behind };
    // the name of the borrow that it reads from, for a source that has one; the same after each call
    ghost lender: { Self → ℕ };

    /// Whether a line feed is held, so that the next call reads nothing.
    fn holds_line(&self) -> bool
        ensures { IsTrue result ↔ Contains (input self.now).held 10 };

    /// Takes the next line, and gives the command that it stands for.
    fn next(&mut self) -> NextCommand
        ensures gives { GivesNext (to_come (input self.old)) (to_come (input self.new)) result }
        // while a line feed is held, nothing is read
        ensures takes_late { Contains (input self.old).held 10 → (behind self.new ≡ behind self.old)
            × IsUnread (input self.old) (input self.new) }
        // every whole line of the bytes that were read was given before
        ensures none_held { result ≡ NextCommand.ReadFault → IsPlain (input self.new).held }
        ensures fault { result ≡ NextCommand.ReadFault → Rose (input self.old).faults (input self.new).faults }
        ensures same { result ≢ NextCommand.ReadFault → (input self.new).faults ≡ (input self.old).faults }
        ensures lender { lender self.new ≡ lender self.old };
}

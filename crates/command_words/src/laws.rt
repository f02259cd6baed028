// The law of plain words, as the contract of a function that does nothing.
ghost use Rattle.std.specs.Prelude.{◌≡◌, ℕ, List, []};
ghost use Rattle.clap.specs.Words.{fault_of, subcommand_of};
ghost use Rattle.command_words.specs.Numbers.{FoundSays};
ghost use Rattle.command_words.specs.Plain.{ArePlainFor};
ghost use Rattle.command_words.specs.Program.{gczone};
ghost use Rattle.command_words.specs.declared.line.CommandLine.{CommandLine as ALine};

/// Clap takes plain words, and what it finds says the command line that they are written for, and no other.
pub fn plain_words_law()
    ensures taken { (words : List (List ℕ)) (line : ALine) → ArePlainFor words line → fault_of gczone words ≡ [] }
    ensures only { (words : List (List ℕ)) (line other : ALine) → ArePlainFor words line
        → FoundSays (subcommand_of gczone words) other → other ≡ line }
{}

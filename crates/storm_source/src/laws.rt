// The law of a storm's lines, as the contract of a function that does nothing.
ghost use Rattle.std.specs.Prelude.{ℕ, List};
ghost use Rattle.gz_names.specs.declared.commands.Cmd.{Cmd};
ghost use Rattle.storm_source.specs.Commands.{AreOfStorm, SpellAll};
ghost use Rattle.storm_source.specs.Trace.{storm_lines};

/// Each line of a storm stands for a command. Of whatever commands they stand for, the first four make
/// zones, no later one does, none is about weak slots or watched cells, and the last three finish a
/// collection, collect these zones, and ask for colours.
pub fn storm_law()
    ensures stand { (seed lines : ℕ) → (commands : List Cmd) × SpellAll (storm_lines seed lines) commands }
    ensures only { (seed lines : ℕ) (commands : List Cmd)
        → SpellAll (storm_lines seed lines) commands → AreOfStorm commands }
{}

// What the words say.
ghost use Rattle.std.specs.Prelude.{◌≡◌, ◌⊎◌, ◌≤◌, [], codes, Ok, Err, IfOk, IfSome, OnOk, map};
ghost use Rattle.clap.specs.Words.{fault_of, found_of, rows_of, subcommand_of};
ghost use Rattle.command_words.specs.declared.line.CommandLine.{CommandLine as ALine};
ghost use Rattle.command_words.specs.Numbers.{FoundSays, GivesNumber, IsInRange, Says};
ghost use Rattle.command_words.specs.Plain.{ArePlainFor};
ghost use Rattle.command_words.specs.Program.{gczone};

use crate::program::parse;
use clap::ArgMatches;
use clap::error::ErrorKind;
use std::alloc::Global;

/// What is to be done.
#[derive(Clone, Copy, Debug, PartialEq, Eq)]
pub enum CommandLine {
    /// Answers the trace on standard input.
    Run { helpers: u8, markers: u8 },
    /// Answers a generated trace.
    Storm { seed: u32, lines: u32, helpers: u8 },
    /// Checks the dump of colours on standard input.
    Check,
}

/// Why the words say nothing.
#[derive(Clone, Copy, Debug, PartialEq, Eq)]
pub enum WordsFault {
    /// They are none that the program takes.
    Usage,
    NoMemory,
}

// How many helpers there are to be. Clap takes no more than 4.
fn helpers_of(matches: &ArgMatches) -> Option<u8>
    ensures given { IfSome result (GivesNumber (rows_of (found_of matches.now)) (codes "helpers")) }
    ensures range { IfSome result (λ n. n ≤ 4) }
{
    let helpers = matches.get_one("helpers")?;
    if 4 < helpers {
        return None;
    }
    Some(helpers)
}

// How many markers there are to be. Clap takes 1 and 2.
fn markers_of(matches: &ArgMatches) -> Option<u8>
    ensures given { IfSome result (GivesNumber (rows_of (found_of matches.now)) (codes "markers")) }
    ensures range { IfSome result (λ n. (1 ≤ n) × (n ≤ 2)) }
{
    let markers = matches.get_one("markers")?;
    if markers == 0 || 2 < markers {
        return None;
    }
    Some(markers)
}

// What is given to `run`.
fn run_line(matches: &ArgMatches) -> Option<CommandLine>
    ensures numbers { IfSome result (Says (codes "run") (rows_of (found_of matches.now))) }
    ensures ranges { IfSome result IsInRange }
{
    let helpers = helpers_of(matches)?;
    let markers = markers_of(matches)?;
    Some(CommandLine::Run { helpers, markers })
}

// What is given to `storm`. Clap takes numbers in their ranges alone.
fn storm_line(matches: &ArgMatches) -> Option<CommandLine>
    ensures numbers { IfSome result (Says (codes "storm") (rows_of (found_of matches.now))) }
    ensures ranges { IfSome result IsInRange }
{
    let seed = matches.get_one("seed")?;
    let lines = matches.get_one("lines")?;
    let helpers = helpers_of(matches)?;
    if 2147483647 < seed || lines == 0 || 1000000 < lines {
        return None;
    }
    Some(CommandLine::Storm {
        seed,
        lines,
        helpers,
    })
}

// What a subcommand's name and its matches say; the program has no other subcommand.
fn line_of(name: &str, matches: &ArgMatches) -> Option<CommandLine>
    ensures numbers { IfSome result (Says name.now (rows_of (found_of matches.now))) }
    ensures ranges { IfSome result IsInRange }
{
    match name {
        "run" => run_line(matches),
        "storm" => storm_line(matches),
        "check" => Some(CommandLine::Check),
        _ => None,
    }
}

/// Reads the words of the command line, the program's name first. Words that clap refuses are a usage error, and no
/// others; the numbers are those that it found, each in its range. Plain words are taken for what they say.
pub fn read_words<'a>(alloc: Global, words: &'a [&'a str]) -> Result<CommandLine, WordsFault>
    ensures numbers { IfOk result (FoundSays (subcommand_of gczone (map (λ w. w.now) words.now))) }
    ensures ranges { IfOk result IsInRange }
    ensures taken { OnOk result (fault_of gczone (map (λ w. w.now) words.now) ≡ []) }
    ensures plain { (line : ALine) → ArePlainFor (map (λ w. w.now) words.now) line
        → (result ≡ Ok line) ⊎ (result ≡ Err WordsFault.NoMemory) }
    ensures usage { result ≡ Err WordsFault.Usage → fault_of gczone (map (λ w. w.now) words.now) ≡ [] → ⊥ }
{
    match parse(alloc, words) {
        Ok(matches) => {
            let Some((name, inner)) = matches.subcommand() else {
                return Err(WordsFault::NoMemory);
            };
            match line_of(name, inner) {
                Some(line) => Ok(line),
                None => Err(WordsFault::NoMemory),
            }
        }
        Err(error) => {
            if error.kind() == ErrorKind::OutOfMemory {
                return Err(WordsFault::NoMemory);
            }
            Err(WordsFault::Usage)
        }
    }
}

// The command that clap reads.
ghost use Rattle.std.specs.Prelude.{◌≡◌, IfOk, false, map};
ghost use Rattle.clap.specs.Words.{FailsBy, fault_of, rule_of, subcommand_of, subcommand_rows_of};
ghost use Rattle.command_words.specs.Program.{Tells, check, gczone, helpers_rule, lines_rule, markers_rule};
ghost use Rattle.command_words.specs.Program.{run, seed_rule, storm};

use clap::builder::ValueParser;
use clap::{Arg, ArgAction, ArgMatches, Command, Error};
use std::alloc::{AllocError, Global};

fn helpers<'a>(alloc: Global) -> Arg<'a>
    ensures rule { rule_of result ≡ helpers_rule }
    ensures local { result.global ≡ false }
{
    Arg::new(alloc, "helpers")
        .long("helpers")
        .action(ArgAction::Set)
        .value_parser(ValueParser::Unsigned(0, 4))
        .default_value("2")
}

fn markers<'a>(alloc: Global) -> Arg<'a>
    ensures rule { rule_of result ≡ markers_rule }
    ensures local { result.global ≡ false }
{
    Arg::new(alloc, "markers")
        .long("markers")
        .action(ArgAction::Set)
        .value_parser(ValueParser::Unsigned(1, 2))
        .default_value("1")
}

fn seed<'a>(alloc: Global) -> Arg<'a>
    ensures rule { rule_of result ≡ seed_rule }
    ensures local { result.global ≡ false }
{
    Arg::new(alloc, "seed")
        .action(ArgAction::Set)
        .required(true)
        .value_parser(ValueParser::Unsigned(0, 2147483647))
}

fn lines<'a>(alloc: Global) -> Arg<'a>
    ensures rule { rule_of result ≡ lines_rule }
    ensures local { result.global ≡ false }
{
    Arg::new(alloc, "lines")
        .action(ArgAction::Set)
        .required(true)
        .value_parser(ValueParser::Unsigned(1, 1000000))
}

fn run_command<'a>(alloc: Global) -> Result<Command<'a>, AllocError>
    ensures { IfOk result (Tells run) }
{
    let command = Command::new(alloc, "run")
        .arg(helpers(alloc))?
        .arg(markers(alloc))?;
    Ok(command)
}

fn storm_command<'a>(alloc: Global) -> Result<Command<'a>, AllocError>
    ensures { IfOk result (Tells storm) }
{
    let command = Command::new(alloc, "storm")
        .arg(seed(alloc))?
        .arg(lines(alloc))?
        .arg(helpers(alloc))?;
    Ok(command)
}

fn check_command<'a>(alloc: Global) -> Command<'a>
    ensures { Tells check result }
{
    Command::new(alloc, "check")
}

fn gczone_command<'a>(alloc: Global) -> Result<Command<'a>, AllocError>
    ensures { IfOk result (Tells gczone) }
{
    let run = run_command(alloc)?;
    let storm = storm_command(alloc)?;
    let command = Command::new(alloc, "gczone")
        .subcommand_required(true)
        .subcommand(run)?
        .subcommand(storm)?
        .subcommand(check_command(alloc))?;
    Ok(command)
}

/// Has clap parse the words, the program's name first.
pub fn parse<'a>(alloc: Global, words: &'a [&'a str]) -> Result<ArgMatches<'a>, Error>
    ensures faults { FailsBy (fault_of gczone (map (λ w. w.now) words.now)) result }
    ensures matches { IfOk result
        (λ m. subcommand_rows_of m ≡ subcommand_of gczone (map (λ w. w.now) words.now)) }
{
    let command = gczone_command(alloc)?;
    command.try_get_matches_from(words)
}

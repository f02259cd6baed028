// The commands of a storm.
ghost use Rattle.std.specs.Prelude.{◌≡◌, ◌<◌};
ghost use Rattle.storm_source.specs.Commands.{collection_command, drawn_command, head_command, row_command};
ghost use Rattle.storm_source.specs.Commands.{tail_command};
ghost use Rattle.storm_source.specs.Draws.{next_state};
ghost use Rattle.storm_source.specs.Trace.{line_state, row_choices, words_state};

use crate::generator::Generator;
use gz_names::{Cmd, CompNo, GraphCmd, Reg, ZoneNo, ZoneSet};

// The command of a row of the table below 15. Its arguments are drawn from left to right.
fn draw_graph_command(row: u8, generator: &mut Generator) -> GraphCmd
    requires { row < 15 }
    ensures state { generator.new.state ≡ words_state (row_choices row) generator.old.state }
    ensures command { result ≡ row_command row generator.old.state }
{
    match row {
        0..=2 => GraphCmd::New(
            generator.draw_register(),
            generator.draw_compartment(),
            generator.draw(5),
        ),
        3 => GraphCmd::Map(generator.draw_register(), generator.draw_compartment()),
        4 | 5 => GraphCmd::Get(
            generator.draw_register(),
            generator.draw_register(),
            generator.draw(4),
        ),
        6 | 7 => GraphCmd::Set(
            generator.draw_register(),
            generator.draw(4),
            Some(generator.draw_register()),
        ),
        8 => GraphCmd::Wrap(
            generator.draw_register(),
            generator.draw_register(),
            generator.draw_compartment(),
        ),
        9 => GraphCmd::Unwrap(generator.draw_register(), generator.draw_register()),
        10 => GraphCmd::Put(
            generator.draw_register(),
            generator.draw_register(),
            generator.draw_register(),
        ),
        11 => GraphCmd::Find(
            generator.draw_register(),
            generator.draw_register(),
            generator.draw_register(),
        ),
        12 => GraphCmd::Hold(generator.draw_gray_slot(), generator.draw_register()),
        13 => GraphCmd::Expose(generator.draw_register(), generator.draw_gray_slot()),
        _ => GraphCmd::Drop(generator.draw_register()),
    }
}

// A command that begins a collection, or goes on with one.
fn draw_collection(generator: &mut Generator) -> Cmd
    ensures state { generator.new.state ≡ next_state (next_state generator.old.state) }
    ensures command { result ≡ collection_command generator.old.state }
{
    if generator.draw(4) == 0 {
        return Cmd::Gc(ZoneSet {
            bits: 1 + u64::from(generator.draw(15)),
        });
    }
    Cmd::Slice(u32::from(generator.draw(64)))
}

/// Draws the command of a line.
pub fn draw_command(generator: &mut Generator) -> Cmd
    ensures state { generator.new.state ≡ line_state generator.old.state }
    ensures command { result ≡ drawn_command generator.old.state }
{
    let row = generator.draw(16);
    if row < 15 {
        return Cmd::Graph(draw_graph_command(row, generator));
    }
    draw_collection(generator)
}

fn zone(index: u8) -> ZoneNo
    requires { index < 64 }
    ensures { result ≡ index }
{
    match ZoneNo::new(index) {
        Some(zone) => zone,
        None => unreachable!(),
    }
}

fn register(index: u8) -> Reg
    requires { index < 16 }
    ensures { result ≡ index }
{
    match Reg::new(index) {
        Some(register) => register,
        None => unreachable!(),
    }
}

/// A command before those that are drawn.
pub fn head_command(index: u8) -> Cmd
    requires { index < 16 }
    ensures { result ≡ head_command index }
{
    let graph = match index {
        0..=3 => GraphCmd::Zone,
        4..=11 => GraphCmd::Comp(zone(index % 4)),
        _ => GraphCmd::New(register(index - 12), CompNo(index - 12), 4),
    };
    Cmd::Graph(graph)
}

/// A command behind those that are drawn.
pub fn tail_command(index: u8) -> Cmd
    requires { index < 3 }
    ensures { result ≡ tail_command index }
{
    match index {
        0 => Cmd::Finish,
        1 => Cmd::Collect(ZoneSet { bits: 15 }),
        _ => Cmd::Colours,
    }
}

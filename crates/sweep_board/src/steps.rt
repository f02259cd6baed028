// The rule of the board's table, and the kinds of step on its words.
ghost use Rattle.sweep_board.specs.Rule.{BoardRule};
ghost use Rattle.sweep_board.specs.Views.{main_view, helper_view, spent_view, with_helper, joined_view};
ghost use Rattle.sweep_board.specs.Steps.{claims, passes_gate, loads_black, loads_gob, stores_freed, stores_done};
ghost use Rattle.sweep_board.specs.Steps.{wakes, looks, reads_freed, reads_black, takes};

use crate::view::View;
use atomic_table::{Join, Play, Split, TableRule};
use cell_bits::Job;
use gz_io::Gate;
use std::marker::PhantomData;

/// The table's rule. Its key is the list of the board's jobs.
pub struct Ruled;

impl TableRule<(), View, Vec<Job>> for Ruled {
    ghost holds = { λ key. BoardRule key.items };

    ghost first = { λ key. main_view key.items };
}

/// Main's seat is split: a fresh helper's seat comes off.
pub struct SplitsHelper;

impl Split<View> for SplitsHelper {
    ghost left = { with_helper };

    ghost right = { λ v. helper_view v.jobs };
}

/// A helper's seat is joined into main's.
pub struct JoinsHelper;

impl Join<View> for JoinsHelper {
    ghost both = { joined_view };

    ghost spent = { spent_view };
}

pub struct Claims;

impl Play<(), View> for Claims {
    ghost then = { claims };
}

pub struct PassesGate<G: Gate> {
    gate: PhantomData<G>,
}

impl<G: Gate> Play<(), View> for PassesGate<G> {
    ghost then = { passes_gate G.name };
}

pub struct LoadsBlack;

impl Play<(), View> for LoadsBlack {
    ghost then = { loads_black };
}

pub struct LoadsGob;

impl Play<(), View> for LoadsGob {
    ghost then = { loads_gob };
}

pub struct StoresFreed;

impl Play<(), View> for StoresFreed {
    ghost then = { stores_freed };
}

pub struct StoresDone;

impl Play<(), View> for StoresDone {
    ghost then = { stores_done };
}

pub struct Wakes;

impl Play<(), View> for Wakes {
    ghost then = { wakes };
}

pub struct Looks;

impl Play<(), View> for Looks {
    ghost then = { looks };
}

pub struct ReadsFreed;

impl Play<(), View> for ReadsFreed {
    ghost then = { reads_freed };
}

pub struct ReadsBlack;

impl Play<(), View> for ReadsBlack {
    ghost then = { reads_black };
}

pub struct Takes;

impl Play<(), View> for Takes {
    ghost then = { takes };
}

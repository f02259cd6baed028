// The rule of the table of black words, and the kinds of step on it.
ghost use Rattle.mark_words.specs.Rule.{MarkRule};
ghost use Rattle.mark_words.specs.Views.{first_view, with_less, split_off, joined, spent};
ghost use Rattle.mark_words.specs.Steps.{looks, tries, settles};

use crate::place_list::{PlaceList, SlotMask};
use crate::view::MarkView;
use atomic_table::{Join, Play, Split, TableRule};
use std::marker::PhantomData;

/// The table's rule. Its key is the first value of each word.
pub struct Ruled<L> {
    list: PhantomData<L>,
}

impl<L: PlaceList> TableRule<(), MarkView, Vec<u64>> for Ruled<L> {
    ghost holds = { λ key. MarkRule L.places key.items };

    ghost first = { λ key. first_view key.items };
}

/// One part comes off a seat, for a new one.
pub struct Splits;

impl Split<MarkView> for Splits {
    ghost left = { with_less };

    ghost right = { split_off };
}

/// A seat takes over another one's parts and all that it knows.
pub struct Joins;

impl Join<MarkView> for Joins {
    ghost both = { joined };

    ghost spent = { spent };
}

/// A seat tries some slots of an arena.
pub struct Tries;

impl Play<(), MarkView> for Tries {
    ghost then = { tries };
}

/// A seat looks whether some slots of an arena are all black, and has tried them if they are.
pub struct Looks<K> {
    slots: PhantomData<K>,
}

impl<K: SlotMask> Play<(), MarkView> for Looks<K> {
    ghost then = { looks K.slots };
}

/// A seat that holds all parts learns that all that was won was won by it.
pub struct Settles;

impl Play<(), MarkView> for Settles {
    ghost then = { settles };
}

// Arenas that are handed to sweeping, as atomic words on a board that main and helpers share.
//
// [gczone] The sweep board
//
// When a sweep group ends, its arenas are handed to sweeping: helper threads find the white cells of
// each, while main runs commands and marks the next group. On the board an arena has four words, and
// one atomic step is one load, store, fetch_or or compare_exchange of one of them:
//
//     word    what it holds                       who steps on it
//     state   READY, CLAIMED or DONE              a helper claims, and stores DONE; main looks
//     black   BlackBit of each slot               main wakes by fetch_or, and reads back; the
//                                                 claimer loads
//     gob     GrayOrBlackBit, never changed       the claimer loads
//     freed   0, then the slots to free           the claimer stores; main reads back
//
//                claim                     store freed, store DONE          take
//     READY ---------------> CLAIMED --------------------------> DONE - - - - - - -> TAKEN
//            one seat wins            the claimer alone                 main's view alone
//
// A board opens with each arena READY and its freed word 0. An arena is DONE exactly where it stands
// once in what all views say was swept: nothing but a claim and its sweep makes an arena done, and a
// board that swept by itself as it opened would break the rule of its own table (`Board::new`).
// A claim is one compare_exchange, so one seat gets it; `Claim` is a value that only `sweep` ends.
// `pass_gate` is lent it, so a helper stands at its gate between the claim and the loads; it loads
// the state word there, for no more than that its view notes the gate.
// TAKEN is no state of the word: main's seat knows what it took in, and takes nothing twice.
//
// The story of a wake between two loads, in an arena of four slots, all allocated:
//
//     a helper claims the arena and loads black            1 0 0 0
//     a command exposes the gray cell of the second slot   main wakes it: black is now 1 1 0 0
//     the helper loads gob                                 0 1 0 0
//     it stores freed, alloc & !(black | gob)              0 0 1 1
//     main sees DONE and takes                             freed 0 0 1 1, black 1 1 0 0, gob 0 1 0 0
//
// The helper has not seen the wake, and its two loads saw the board at two moments. Still its freed
// word is the white cells of hand-out: main wakes gray cells alone, whose slots gob has, and gob never
// changes. And the wake is not lost, since main reads the black word itself back, not what it handed
// out. What the rule must rule out: were main to wake the white cell of the third slot between the
// loads, the freed word 0 0 1 1 would free a black cell. So a wake's mask lies within gob. And were
// a claim a load and then a store, two helpers could both find READY, and the slower one could store
// its freed word long after main took the arena in and made new cells there.
//
// What holds between any two steps, whatever the order in which threads make theirs, is `BoardRule`
// in specs/Rule.antt; each step is proved to keep it, and `board_rule_in_words` says it in sentences.
// A seat's *view* is what its own steps have told it, and the clauses of the calls speak of views:
// what another thread did is known only as far as the rule ties it to the words.
//
// No call takes a lock, since none has the bound `Wait` without which it could not wait: a board with
// one lock round everything cannot be written under these signatures. Only `Board::new` takes memory.
// That a helper runs at all, and when, is claimed nowhere.
#![tactic(auto)]

mod board;
mod flight;
mod in_words;
mod steps;
mod threads;
mod view;

pub use board::{Board, Claim, HelperSeat, MainSeat};
pub use cell_bits::{Bits, Colour, Flight, Job, NoFlight, Taken};
pub use flight::{FlightOrigin, InFlight};
pub use in_words::board_rule_in_words;
pub use view::{Role, Stage, View, Visit};

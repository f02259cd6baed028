// What a replay does when its source, its sink or its input stops at any place.
//
// [gczone] Fault tables
//
// The contract of `replay` says, for each exit, which lines were answered and what else was written. It holds for every
// source and every sink, so for those that fail. A contract does not run, though: it says nothing of a replay that ends
// in `NoMemory` each time, and a device that is never asked cannot fail. So these tables run every place at which two
// worked traces can stop, and compare the exit and all that was written with the answers of the traces.
//
//     trace      z   o   n   e   \n  c   o   m   p   ..   .    a byte a call, the last call finds the end
//     read k     the call k of the source fails: the lines that end before byte k were answered, and nothing else
//     answers    z   o   n   e       0   \n  c   o   ..        a byte a call
//     write k    the call k of the sink fails: the first k bytes were written, so whole lines and a prefix of the next
//     prefix k   the input ends after k bytes: its last line is answered if it is one of the language, or it is bad;
//                likewise if the source fails where it is asked again
//
// Each table goes on to the first k that fails no more, and that replay must be over after all lines. In one trace a
// key is gray and its map black, and a collection is one line. In the other, arenas are out between two lines when a
// gray object is exposed; so helpers sweep, and stop, at faults in every line of a collection in slices. The sink fails
// in a third one too, in which the arenas of two zones are out at once, and two helpers sweep: one may start for each
// arena here, and in the program for each 1,024. A check of a dump has such a table as well.
//
// Beside the tables stand the other tests that need a source, a sink, a gate or an allocator of their own:
//
//     gates      a gate holds helpers up: they still sweep what is printed, four of them at once, and what is written
//                stays the same
//     devices    a reader goes on after a fault, and a sink that holds bytes back writes each of them once
//     again      a step of a session that ran out of memory is taken again (tools/check-faults refuses each growth)
//     calls      each call of a session for a command answers once: no clause says that memory is left
//     texts      what no trace can show: texts of exits, of replies that no line gets yet, and of the largest numbers
//
// There is nothing here but tests: they stand above all other crates, since they need the whole program. A crate with
// tests is proved twice, so they stand here and not in the crates whose calls they make.
#![tactic(auto)]

#[cfg(test)]
mod tests;

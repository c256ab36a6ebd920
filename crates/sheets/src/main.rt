// Replays a fixed list of sheets with the answers that an independent reader, over the Rust's mixer, gave (compare/run
// --list writes it). It prints a line for each record that differs, and then how many sheets were replayed and how many
// differ.
//
// Compared are the number and the entry number, every byte of the output, the state afterwards, the body of one entry,
// and of some records the text that `mixrun` prints. record.rt has the layout of a record.

#![tactic(auto)]

mod record;

use lists::{Tally, compare_list};
use record::Sheets;
use std::fmt::Write;
use streams::{Stdout, read};

// How many bytes there is room for: more than the list has.
const ROOM: usize = 393216;

fn main() {
    let mut room = [0; ROOM];
    let Tally { compared, differ } = compare_list(read(&mut room), ROOM, Sheets);
    let _ = writeln!(Stdout, "{compared} sheets replayed, {differ} differ");
}

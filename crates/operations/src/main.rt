// Runs the four operations of IEEE 754 on the processor and compares each result with the definition's answer. It
// prints a line for each of the first few that differ, and then 'N operations compared, D differ'. The gate runs it,
// compiled for x86-64, on the list in the file stdin, which `compare/operations --list` writes by whole numbers alone,
// from the definition in crates/binary32/specs/Nearest.antt and Operations.antt.
//
// The list is words of four bytes, little-endian: how many records there are, and then the records. A record is four
// words: the operation (1 the sum, 2 the difference, 3 the product, 4 the quotient), the two operands, and the answer.
//
// A float is written as its bits, and an answer that is a NaN as 7fc00000, just as `bits_of` writes ours, so any NaN
// agrees with any other. An operand that is a NaN of any bits is read as the one NaN (`float_of`). An operation of
// another number counts as a difference, and so does a list that is not as many whole records as it says: what is not
// read never passes.

#![tactic(auto)]

mod list;
mod operate;

use list::Processor;
use lists::{Tally, compare_list};
use std::fmt::Write;
use streams::{Stdout, read};

// How many bytes there is room for: more than the list has.
const ROOM: usize = 131072;

fn main() {
    let mut room = [0; ROOM];
    let Tally { compared, differ } = compare_list(read(&mut room), ROOM, Processor);
    let _ = writeln!(Stdout, "{compared} operations compared, {differ} differ");
}

// A list of answers, walked record by record: how `operations`, `replay` and `sheets` hold theirs to ours. A list is
// how many records there are, in four bytes, and then the records.

#![tactic(auto)]

ghost use Rattle.std.specs.Prelude.{◌≡◌, ◌+◌, ◌-◌, ◌*◌, ◌<◌, ◌≤◌, ℕ, length, IsTrue};
ghost use Rattle.lists.specs.Counted.{Counted};

use std::fmt;
use std::fmt::Write;
use streams::Stdout;
use wire::read_u32;

// The bytes of the count that stands before the records.
const HEAD: usize = 4;

// What the records of a list are held to: our answers.
pub trait Answers {
    // What is printed of a record that differs, after its number: the rest of the line, with its end.
    type Difference: fmt::Display + Drop;

    // How many of the differences are shown.
    const SHOWN: usize;

    // How many bytes a record has at the least.
    ghost least: { ℕ };

    // How many bytes the record has that begins here.
    fn size_of(list: &[u8]) -> usize
        ensures some { 0 < result }
        ensures least { least ≤ result };

    // Whether our answer is the record's, and how it differs if not.
    fn compare(&mut self, record: &[u8]) -> Result<(), Self::Difference>;
}

// How many records were compared, and how many differences there are.
#[derive(Clone, Copy)]
pub struct Tally {
    pub compared: usize,
    pub differ: usize,
}

// Compares a list that was read into a room of so many bytes. The differences are printed as far as they are to be
// shown. What is not as many whole records as the list says is one difference more, whatever it is; so is a list that
// fills the room, as it may have more to come.
pub fn compare_list<A: Answers + Drop>(list: &[u8], room: usize, mut ours: A) -> Tally
    ensures few { result.differ ≤ result.compared + 1 }
    ensures fits { A.least * result.compared ≤ length list.now - 4 }
    ensures whole { result.differ ≡ 0 → Counted room list.now result.compared }
{
    let mut compared = 0;
    let mut differ = 0;
    let mut rest = list.get(HEAD..).unwrap_or(&[]);
    while let Some((record, after)) = rest.split_at_checked(A::size_of(rest)) {
        if let Err(difference) = ours.compare(record) {
            if differ < A::SHOWN {
                let _ = write!(Stdout, "record {compared}{difference}");
            }
            differ += 1;
        }
        compared += 1;
        rest = after;
    }
    if !rest.is_empty() || !is_counted(list, room, compared) {
        differ += 1;
    }
    Tally { compared, differ }
}

// Whether a list that does not fill the room says so many records.
fn is_counted(list: &[u8], room: usize, records: usize) -> bool
    ensures { IsTrue result → Counted room list.now records }
{
    HEAD <= list.len() && list.len() < room && records == read_u32(list, 0) as usize
}

#[cfg(test)]
mod tests {
    use super::*;
    use std::test::Fail;

    // Records of one byte, of which those are right that are 0.
    #[derive(Drop)]
    struct Zeros;

    impl Answers for Zeros {
        type Difference = u8;

        const SHOWN: usize = 0;

        ghost least = { 1 };

        fn size_of(_list: &[u8]) -> usize {
            1
        }

        fn compare(&mut self, record: &[u8]) -> Result<(), u8> {
            match record.first() {
                Some(0) => Ok(()),
                _ => Err(1),
            }
        }
    }

    // A walk that compares nothing would keep the clauses: each record is compared, right or wrong.
    #[test]
    fn each_record_is_compared(rt: HostRuntime) -> Result<(), Fail> {
        let right = compare_list(&[3, 0, 0, 0, 0, 0, 0], 100, Zeros);
        assert_eq!(rt; right.compared, 3);
        assert_eq!(rt; right.differ, 0);
        let wrong = compare_list(&[3, 0, 0, 0, 7, 0, 7], 100, Zeros);
        assert_eq!(rt; wrong.compared, 3);
        assert_eq!(rt; wrong.differ, 2);
        let cut = compare_list(&[3, 0, 0, 0, 0, 0], 100, Zeros);
        assert_eq!(rt; cut.differ, 1);
        Ok(())
    }
}

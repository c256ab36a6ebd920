// A record of the list, and how it differs from the processor's result.
use crate::operate::{NoOperation, Operation};
use bits::{bits_of, float_of};
use lists::Answers;
use std::{array, fmt};
use streams::Word;
use wire::read_u32;

// The bytes of a record.
const RECORD: usize = 16;

// The processor, whose results are held to the definition's answers.
#[derive(Clone, Copy)]
pub(crate) struct Processor;

// How a record differs: its number is that of no operation, or its answer is not the processor's result.
#[derive(Clone, Copy)]
pub(crate) enum Difference {
    Unknown(NoOperation),
    Answer {
        operation: Operation,
        x: u32,
        y: u32,
        ours: u32,
        answer: u32,
    },
}

impl From<NoOperation> for Difference {
    fn from(unknown: NoOperation) -> Self {
        Difference::Unknown(unknown)
    }
}

impl fmt::Display for Difference {
    fn fmt<W: fmt::Write>(&self, f: &mut fmt::Formatter<W>) -> fmt::Result {
        match self {
            Difference::Unknown(NoOperation(number)) => {
                writeln!(f, ": {} is no operation", Word(*number))
            }
            Difference::Answer {
                operation,
                x,
                y,
                ours,
                answer,
            } => writeln!(
                f,
                ": {}{operation}{}: ours {}, the definition's {}",
                Word(*x),
                Word(*y),
                Word(*ours),
                Word(*answer)
            ),
        }
    }
}

impl Answers for Processor {
    type Difference = Difference;

    const SHOWN: usize = 4;

    ghost least = { 16 };

    fn size_of(_list: &[u8]) -> usize {
        RECORD
    }

    // A record is the operation's number, the two operands and the answer.
    fn compare(&mut self, record: &[u8]) -> Result<(), Difference> {
        let [number, x, y, answer]: [u32; 4] = array::from_fn(|i| read_u32(record, 4 * i));
        let operation = Operation::try_from(number)?;
        let ours = bits_of(operation.of(float_of(x), float_of(y)));
        if ours == answer {
            return Ok(());
        }
        Err(Difference::Answer {
            operation,
            x,
            y,
            ours,
            answer,
        })
    }
}

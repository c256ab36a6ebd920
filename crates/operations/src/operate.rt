// The operations, on the processor.
ghost use Rattle.std.specs.Prelude.{◌≡◌};
ghost use Rattle.operations.specs.Operated.{operated, Numbered};

use std::fmt;

// An operation of the list.
#[derive(Clone, Copy)]
pub(crate) enum Operation {
    Sum,
    Difference,
    Product,
    Quotient,
}

// A number that is no operation's.
#[derive(Clone, Copy)]
pub(crate) struct NoOperation(pub(crate) u32);

impl TryFrom<u32> for Operation {
    type Error = NoOperation;

    ghost try_from_gives = { Numbered };

    fn try_from(number: u32) -> Result<Self, NoOperation> {
        match number {
            1 => Ok(Operation::Sum),
            2 => Ok(Operation::Difference),
            3 => Ok(Operation::Product),
            4 => Ok(Operation::Quotient),
            _ => Err(NoOperation(number)),
        }
    }
}

// Its sign, with the spaces about it.
impl fmt::Display for Operation {
    fn fmt<W: fmt::Write>(&self, f: &mut fmt::Formatter<W>) -> fmt::Result {
        f.write_str(match self {
            Operation::Sum => " + ",
            Operation::Difference => " - ",
            Operation::Product => " * ",
            Operation::Quotient => " / ",
        })
    }
}

impl Operation {
    // Its result. The two floats are read at run time, so that no compiler can run it beforehand.
    pub(crate) fn of(self, x: f32, y: f32) -> f32
        ensures { result ≡ operated self x y }
    {
        match self {
            Operation::Sum => x + y,
            Operation::Difference => x - y,
            Operation::Product => x * y,
            Operation::Quotient => x / y,
        }
    }
}

// Why a sheet is refused.
ghost use Rattle.std.specs.Prelude.{◌≡◌};
ghost use Rattle.entries.specs.Refusal.{refusal_number};

// One case for each of document 01's numbers 1 to 9.
#[derive(Debug, Clone, Copy, PartialEq, Eq)]
pub enum Refusal {
    TooShort,
    BadVersion,
    TooMany,
    BadLength,
    BadKind,
    BadRotor,
    BadOffset,
    BadEnd,
    ShortOutput,
}

// Document 01's number.
impl From<Refusal> for u8 {
    ghost from_gives = { λ r n. n ≡ refusal_number r };

    fn from(r: Refusal) -> u8 {
        match r {
            Refusal::TooShort => 1,
            Refusal::BadVersion => 2,
            Refusal::TooMany => 3,
            Refusal::BadLength => 4,
            Refusal::BadKind => 5,
            Refusal::BadRotor => 6,
            Refusal::BadOffset => 7,
            Refusal::BadEnd => 8,
            Refusal::ShortOutput => 9,
        }
    }
}

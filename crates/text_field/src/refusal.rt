// Why a request is refused.
ghost use Rattle.std.specs.Prelude.{◌≡◌};
ghost use Rattle.text_field.specs.Refusal.{number_of};

// A refusal. Documents 01 and 02 number them; 15 and 16 are for a log of mountings, which is not
// read yet.
#[derive(Clone, Copy, PartialEq, Eq)]
pub enum Refusal {
    TooLong = 1,
    Malformed = 2,
    OutOfRange = 3,
    NotAscending = 4,
    TooManyRows = 5,
    NoOrder = 6,
    NoQuery = 7,
    NoPathRow = 8,
    NoRoom = 9,
    NoPrinting = 10,
    NoDeclaration = 11,
    NoExpression = 12,
    TooManyStates = 13,
    NoOldForm = 14,
    NoList = 17,
    NoDrawing = 18,
    OtherScopes = 19,
}

impl Refusal {
    // The refusal's number, as a host is told it.
    #[tactic(auto, unfolding(crate::specs::Refusal::number_of))]
    pub fn number(self) -> u64
        ensures answer { result ≡ number_of self }
    {
        self as u64
    }
}

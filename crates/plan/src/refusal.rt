ghost use Rattle.std.specs.Prelude.{◌≡◌};
ghost use Rattle.plan.specs.Refusals.{number, values};

/// Why the words of a plan are sent back.
#[derive(Clone, Copy, Debug, PartialEq, Eq)]
pub enum Refusal {
    /// The plan has more words than a plan may have.
    TooLong,
    /// The word is not the first word of an item.
    NotAnItem,
    /// The alphabet does not know the code of a term.
    NoSuchCode(u32),
    /// The plan ends inside the item.
    CutShort,
}

// No `Display`: the sentence tells of the plan's words too, and stands in `report`.
/// A refusal, and the position of the first word of the item that it names (0 for a plan that is too long).
#[derive(Clone, Copy, Debug, PartialEq, Eq)]
pub struct PlanFault {
    pub position: usize,
    pub refusal: Refusal,
}

// The numbers and values are those that plans and workspaces state outside the program. `workspace::fault::Fault` answers the
// same two questions, with wider values; nothing takes either of them, so a trait over both would serve no one.
impl Refusal {
    /// The number of the refusal.
    pub fn number(self) -> u32
        ensures { result ≡ number self }
    {
        match self {
            Refusal::TooLong | Refusal::CutShort => 10,
            Refusal::NotAnItem => 9,
            Refusal::NoSuchCode(_) => 3,
        }
    }

    /// The two values that the fault holds beside the number.
    pub fn values(self) -> (u32, u32)
        ensures { result ≡ values self }
    {
        match self {
            Refusal::NoSuchCode(code) => (code, 0),
            Refusal::TooLong | Refusal::NotAnItem | Refusal::CutShort => (0, 0),
        }
    }
}

ghost use Rattle.std.specs.Prelude.{◌≡◌};
ghost use Rattle.workspace.specs.Faults.{number, values};

/// Why a call is sent back.
#[derive(Clone, Copy, Debug, PartialEq, Eq)]
pub enum Fault {
    /// There is no room for the cell or for its places.
    Full,
    /// No known code is admitted by all classes of the set.
    NoCode { set: u8 },
    /// The alphabet does not know the code.
    NoSuchCode { code: u32 },
    /// The code has another number of places.
    WrongCount { code: u32, count: usize },
    /// There is no such cell.
    NoSuchCell { cell: u32 },
    /// The listing does not fit the buffer.
    NoRoom,
    /// With the equation no assignment is left, even with all classes read as empty.
    NoTypes { left: u32, right: u32 },
    /// With the equation no assignment is left, but with all classes read as empty one is.
    NoClasses { left: u32, right: u32 },
}

// The numbers and values are those that are stated outside the program; `plan::refusal::Refusal` answers the same two questions
// with narrower values, and nothing takes either of them, so a trait over both would serve no one.
impl Fault {
    /// The number of the refusal.
    pub fn number(self) -> u32
        ensures { result ≡ number self }
    {
        match self {
            Fault::Full => 1,
            Fault::NoCode { .. } => 2,
            Fault::NoSuchCode { .. } => 3,
            Fault::WrongCount { .. } => 4,
            Fault::NoSuchCell { .. } => 5,
            Fault::NoRoom => 6,
            Fault::NoTypes { .. } => 7,
            Fault::NoClasses { .. } => 8,
        }
    }

    /// The two values that the fault holds beside the number.
    pub fn values(self) -> (u64, u64)
        ensures { result ≡ values self }
    {
        match self {
            Fault::Full | Fault::NoRoom => (0, 0),
            Fault::NoCode { set } => (u64::from(set), 0),
            Fault::NoSuchCode { code } => (u64::from(code), 0),
            // `u64` has no `From<usize>`
            Fault::WrongCount { code, count } => (u64::from(code), count as u64),
            Fault::NoSuchCell { cell } => (u64::from(cell), 0),
            Fault::NoTypes { left, right } | Fault::NoClasses { left, right } => (
                u64::from(left),
                u64::from(right),
            ),
        }
    }
}

/// An item of a plan. A cell is a numbered entry of a workspace; each unknown and each term of a plan makes one.
#[derive(Clone, Copy, Debug, PartialEq, Eq)]
pub enum Item<'a> {
    /// A cell whose type is not known yet, but for the classes that must admit it.
    Unknown { set: u8 },
    /// A cell whose type is the symbol of the code over the types of the cells at its places.
    Term { code: u32, places: &'a [u32] },
    /// An equation: the two cells have one type.
    Link { left: u32, right: u32 },
}

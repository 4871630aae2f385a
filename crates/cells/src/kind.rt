/// What a cell is: an unknown with its set of classes, or a term with the plain code that it counts by.
#[derive(Clone, Copy, PartialEq, Eq, Debug)]
pub enum Kind {
    Unknown(u8),
    Term { plain: u32 },
}

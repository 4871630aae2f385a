/// The codes that an alphabet calls Pair and List. Pair over a type t and List over t is List over t.
#[derive(Clone, Copy, Debug, PartialEq, Eq)]
pub struct Layering {
    pub pair: u32,
    pub list: u32,
}

/// One link of the trail.
#[derive(Clone, Copy, Debug, PartialEq, Eq)]
pub struct Link {
    /// The class that went under another.
    pub lower: u16,
    /// The class that it went under.
    pub upper: u16,
    /// The shape that the upper class had before.
    pub old_shape: u16,
}

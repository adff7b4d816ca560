/// Whether a value of one type may stand where another is wanted.
#[derive(Clone, Copy, Debug, PartialEq, Eq)]
pub enum Flow {
    /// it fits
    Plain,
    /// it is trusted to fit, since something in it is `any`
    Crossing,
    /// it doesn't fit
    No,
}

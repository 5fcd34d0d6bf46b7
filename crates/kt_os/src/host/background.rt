/// An interface to the work that the program does while children run, such as writing its output.
pub trait Background {
    /// Performs one part of the program's work while children run, such as one write of its output.
    ///
    /// The call never waits.
    fn advance(&self);
}

// Where control and values go from inside a body.
/// What becomes 1 where control leaves a loop and where it goes to the loop's next turn, and where the value of the body goes.
#[derive(Debug, Clone, Copy, Drop)]
pub struct Targets {
    /// Becomes 1 where the loop is left.
    pub done: u32,
    /// Becomes 1 where the turn is left.
    pub again: u32,
    /// Where the value of `return` goes.
    pub result: u32,
}

//! Places in written programs.

use og_list::{List, Text};

/// A step from a game expression to one of its parts. None leads into an arm of a branch, or into the body of a called game.
#[derive(Clone, Copy, Debug, PartialEq, Eq)]
pub enum Step {
    /// To the first part of `>>>` or of `&&&`.
    Left,
    /// To the second part of `>>>` or of `&&&`.
    Right,
    /// To the operation of the line of a block at the position, from 1.
    Line(u32),
}

/// A place in a program: a game, and the way from its body to a game expression in it. With no steps it is the body itself.
#[derive(Drop)]
pub struct Place {
    /// The game's name.
    pub game: Text,
    /// The steps, from the body on.
    pub steps: List<Step>,
}

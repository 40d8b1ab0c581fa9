//! Where a run on threads lets its caller look on.

/// A place in a worker's turn.
#[derive(Clone, Copy, PartialEq, Eq, Debug)]
pub enum Point {
    /// The board gave a turn, and is given back; the turn hasn't begun.
    Took,
    /// The lines of the turn have run; the board isn't asked for yet.
    Ran,
}

/// What each worker calls at these places, with its processor's number. It changes nothing of a run, but it may hold a worker back, so
/// that a test brings about the order of steps that it is about.
pub trait Gate {
    fn at(&self, cpu: u32, point: Point);
}

/// The gate that lets every worker through at once.
#[derive(Drop)]
pub struct OpenGate;

impl Gate for OpenGate {
    fn at(&self, _cpu: u32, _point: Point) {}
}

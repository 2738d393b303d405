//! Where workers pass. A gate says nothing to them and no clause sees what it does, so a test may hold workers there
//! to see that several of them judge.

/// What each worker passes before it judges.
pub trait Gate {
    /// Lets the worker pass. Workers count from 1, and each counts its own turns from 1; a turn stays at the greatest u32.
    fn pass(&self, worker: u8, turn: u32);
}

/// A gate that does nothing.
#[derive(Clone, Copy, Debug, PartialEq, Eq)]
pub struct OpenGate;

impl Gate for OpenGate {
    fn pass(&self, _worker: u8, _turn: u32) {}
}

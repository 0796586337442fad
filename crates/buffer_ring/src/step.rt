//! Steps of the engine's end of a store, and what that end knows. Only clauses have them.

use ca_base::{Dir, Gate, Reason};
use std::collections::LinkedList;

/// What a step does with a store.
#[derive(Drop)]
pub enum Deed {
    /// It only looks.
    Looks,
    /// It takes words off the front.
    Retires { count: u32 },
    /// It adds words at the end.
    Puts { words: LinkedList<u64> },
    /// It closes the gate.
    Closes { reason: Reason },
}

/// A step of one end.
#[derive(Drop)]
pub enum StoreStep {
    /// A deed, with how many words it found, and the gate that it found.
    Acts { found: u32, gate: Gate, deed: Deed },
    /// A read of the word at this place, from 0 for the oldest.
    Reads { place: u32, word: u64 },
}

/// What the engine's end knows of a store: how many words it holds at most, which way they go, whether this end has
/// closed the gate, and how many words this end has seen there.
#[derive(Clone, Copy)]
pub struct EndState {
    pub cap: u32,
    pub dir: Dir,
    pub gate: Gate,
    pub seen: u32,
}

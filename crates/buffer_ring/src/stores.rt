//! Stores of words, and their two ends.

ghost use Rattle.std.specs.Prelude.{◌≡◌, ℕ, ◌+◌, ◌-◌, ◌≤◌, ◌<◌, List, [], ◌∷◌, ◌++◌, length, slice_get, Some, IfOk};
ghost use Rattle.ca_base.specs.declared.ids.Gate.TheVariants as gate;
ghost use Rattle.ca_base.specs.declared.limits.TheConstants.{MAX_STORE_WORDS};
ghost use Rattle.buffer_ring.specs.declared.step.Deed.TheVariants as deed;
ghost use Rattle.buffer_ring.specs.declared.step.EndState.{EndState as TheState};
ghost use Rattle.buffer_ring.specs.declared.step.StoreStep.{StoreStep as TheStep};
ghost use Rattle.buffer_ring.specs.declared.step.StoreStep.TheVariants as step;
ghost use Rattle.buffer_ring.specs.Steps.{reads_from, state_after};
ghost use Rattle.buffer_ring.specs.Kept.{Kept, new_store, state_of, RunsSteps, PutsWords, RetiresWords};

use ca_base::{Dir, Gate, NoMemory, Reason, Seen};
use std::alloc::Global;

/// What became of words that a client put.
#[derive(Clone, Copy, Debug, PartialEq, Eq)]
pub enum Put {
    Done,
    Closed(Reason),
}

/// What became of words that a client retired.
#[derive(Clone, Copy, Debug, PartialEq, Eq)]
pub enum Retired {
    Done,
    Closed(Reason),
}

/// The engine's end of a store: it reads and retires the words of a render store, and puts those of a capture store. It
/// alone closes the gate.
pub trait EngineSide: Drop {
    /// What this end knows of the store.
    ghost state: { Self → TheState };

    /// This end took these steps, one after another.
    ghost moves: { Self → List TheStep → Self → Type 0 };

    /// Looks, and answers how many words are there.
    fn held(&mut self) -> u32
        ensures { moves self.old (step.Acts result (state self.old).gate deed.Looks ∷ []) self.new };

    /// The word at a place, from 0 for the oldest.
    fn get(&mut self, i: u32) -> u64
        requires { i < (state self.old).seen }
        ensures { moves self.old (step.Reads i result ∷ []) self.new };

    /// Copies the words from place `i` on out, as many as fill the slice.
    fn read(&mut self, i: u32, words: &mut [u64])
        requires { i + length words.old ≤ (state self.old).seen }
        ensures size { length words.new ≡ length words.old }
        ensures reads { moves self.old (reads_from i words.new) self.new }
        ensures keeps { state self.new ≡ state self.old };

    /// Takes `n` words off the front.
    fn retire(&mut self, n: u32)
        requires seen { n ≤ (state self.old).seen }
        requires open { (state self.old).gate ≡ gate.Open }
        ensures { (found : ℕ) × ((state self.old).seen ≤ found)
            × moves self.old (step.Acts found gate.Open (deed.Retires n) ∷ []) self.new };

    /// Adds words at the end.
    fn put(&mut self, words: &[u64])
        requires room { length words.now ≤ (state self.old).cap - (state self.old).seen }
        requires open { (state self.old).gate ≡ gate.Open }
        ensures { (found : ℕ) × (found ≤ (state self.old).seen)
            × moves self.old (step.Acts found gate.Open (deed.Puts words.now) ∷ []) self.new };

    /// Closes the gate, and answers how many words were there.
    fn close(&mut self, reason: Reason) -> u32
        requires { (state self.old).gate ≡ gate.Open }
        ensures { moves self.old (step.Acts result gate.Open (deed.Closes reason) ∷ []) self.new };

    ghost none: { (a : Self) → moves a [] a };

    ghost joins: { (a b c : Self) (xs ys : List TheStep) → moves a xs b → moves b ys c → moves a (xs ++ ys) c };

    ghost goes: { (a b : Self) (s : TheStep) → moves a (s ∷ []) b → state b ≡ state_after (state a) s };
}

/// A store of which one holds both ends.
pub trait FrameStore: EngineSide + Sized {
    /// The store as a list of words and a gate.
    ghost kept: { Self → Kept };

    /// An empty store of this size in words and this direction. All of its memory is taken now.
    fn new(alloc: Global, cap: u32, dir: Dir) -> Result<Self, NoMemory>
        requires some { 1 ≤ cap }
        requires most { cap ≤ MAX_STORE_WORDS }
        ensures { IfOk result (λ s. kept s ≡ new_store cap dir) };

    /// What is there.
    fn look(&mut self) -> Seen
        ensures words { result.words ≡ length (kept self.old).words }
        ensures gate { result.gate ≡ (kept self.old).gate }
        ensures keeps { kept self.new ≡ kept self.old };

    /// Adds words at the end, if the gate is open.
    fn client_put(&mut self, words: &[u64]) -> Put
        requires { length words.now ≤ (kept self.old).cap - length (kept self.old).words }
        ensures { PutsWords result words.now (kept self.old) (kept self.new) };

    /// The word at a place, from 0 for the oldest.
    fn client_get(&mut self, i: u32) -> u64
        requires { i < length (kept self.old).words }
        ensures word { slice_get (kept self.old).words i ≡ Some result }
        ensures keeps { kept self.new ≡ kept self.old };

    /// Takes `n` words off the front, if the gate is open.
    fn client_retire(&mut self, n: u32) -> Retired
        requires { n ≤ length (kept self.old).words }
        ensures { RetiresWords result n (kept self.old) (kept self.new) };

    ghost whole: { (a : Self) → state_of (kept a) ≡ Self.state a };

    ghost exact: { (a b : Self) (ss : List TheStep) → Self.moves a ss b → RunsSteps (kept a) ss (kept b) };
}

//! An input of whole events completes, as the contract of an empty function.

ghost use Rattle.event_loop.specs.Runs.{Runs};
ghost use Rattle.event_loop.specs.Complete.{WholeInputCompletes};

use call_wire::Desk;

/// Over any desk: if the input is whole events, fewer than 2^40 bytes in all, and no read and no write failed, then
/// `answer_events` ends with Done, and each event was answered and each reply written whole, or with NoMemory.
#[tactic(auto, using(crate::proofs::Complete::whole_input_completes))]
pub fn whole_input_completes<M: Desk>()
    ensures { WholeInputCompletes (Runs M.answers) }
{}

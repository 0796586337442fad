//! What holds of an endpoint's parts and of what is set there: each function's contract is a law, and its body is
//! empty.

ghost use Rattle.topology.specs.Laws.{ChainOfFour, LinksAreWalkedBack, MuteIsRead, NextIsThere, OthersStay};
ghost use Rattle.topology.specs.Laws.{RefusedChangesNothing, StepIsRead, StepsHalve, TwoValues};

/// A step that was set is what is read next of this channel.
pub fn step_is_read()
    ensures { StepIsRead }
{}

/// A mute that was set is what is read next.
pub fn mute_is_read()
    ensures { MuteIsRead }
{}

/// Who sets the step of one channel leaves that of each other.
pub fn others_stay()
    ensures { OthersStay }
{}

/// Steps and the mute are two values.
pub fn two_values()
    ensures { TwoValues }
{}

/// A call that a row refuses answers that row, and changes nothing.
pub fn refused_changes_nothing()
    ensures { RefusedChangesNothing }
{}

/// A link that is walked one way is walked back the other.
pub fn links_are_walked_back()
    ensures { LinksAreWalkedBack }
{}

/// The next part is one of the endpoint's.
pub fn next_is_there()
    ensures { NextIsThere }
{}

/// The chain has three links, from the first part to the last and back.
pub fn chain_of_four()
    ensures { ChainOfFour }
{}

/// Step 0 changes nothing, and each step halves the level.
#[tactic(auto, using(crate::proofs::Steps::steps_halve))]
pub fn steps_halve()
    ensures { StepsHalve }
{}

//! The headline of the machine: what holds of each of its events and runs, as contracts of empty functions.
ghost use Rattle.ca_machine.specs.Complete.{UnrefusedIsGranted};
ghost use Rattle.ca_machine.specs.Headline.{RunsGoOn, RunsHaveHeadline};

use ca_stage::laws;

/// An event for which no row of its table holds is answered S_OK or S_FALSE, and E_OUTOFMEMORY exactly if it asked for
/// memory and there was none.
#[tactic(auto, using(crate::proofs::Complete::unrefused_is_granted))]
pub fn unrefused_is_granted()
    ensures { UnrefusedIsGranted }
{}

/// A run and a run from its last state are one run.
#[tactic(auto, using(crate::proofs::Runs::runs_go_on))]
pub fn run_goes_on()
    ensures { RunsGoOn }
{}

/// Each released frame is rendered, padding, reset or dropped for a reason, once and in order; each mixed frame is the
/// clamped sum of the frames due, each times the gains of that moment; nothing of a stream sounds after its disconnect;
/// devices get the mixed frames' bytes; and each packet that is offered waits, was read in order, or was lost for a
/// reason, and has what one Sound wrote or one period's device gave.
pub fn headline()
    ensures { RunsHaveHeadline }
{
    // The laws of the stage, of which the headline is made.
    laws::conservation();
    laws::totals();
    laws::tallies();
    laws::closed_is_empty();
    laws::positions();
    laws::one_sound();
    laws::nothing_ahead();
    laws::places_rise();
    laws::mix_sums();
    laws::silence();
    laws::present_is_whole();
    laws::present_goes_on();
    laws::booked();
    laws::read_in_order();
    laws::packets_come_from();
}

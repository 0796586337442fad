//! The laws of the stage, each the contract of an empty function. But for the last two they speak of every list of
//! moves from the empty stage, and those on places, and on where packets come from, of every woven one.
ghost use Rattle.ca_stage.specs.Laws.{Booked, CaptureIsOneMap, ClosedIsEmpty, Conservation, Counts, EachClientOnce};
ghost use Rattle.ca_stage.specs.Laws.{EachPlaceOnce, FramesFit};
ghost use Rattle.ca_stage.specs.Laws.{MixSums, NothingAhead, OneSound, PeriodIsOneMap, PicksFit, PlacesRise, Positions};
ghost use Rattle.ca_stage.specs.Laws.{PresentGoesOn, PresentIsWhole, RestsBetween, Silence, StageHolds, Tallies};
ghost use Rattle.ca_stage.specs.Laws.{PacketsComeFrom, ReadInOrder, Totals};

/// The padding of a stream is what was released to it and has no fate, in order.
pub fn conservation()
    ensures { Conservation }
{}

/// A stream counts what was released to it.
#[tactic(auto, using(crate::proofs::Conservation::counts))]
pub fn counts()
    ensures { Counts }
{}

/// The position of a stream is how many of its frames were rendered since its last Reset.
#[tactic(auto, using(crate::proofs::Positions::positions))]
pub fn positions()
    ensures { Positions }
{}

/// A closed stream has no padding.
#[tactic(auto, using(crate::proofs::StageHolds::closed_is_empty))]
pub fn closed_is_empty()
    ensures { ClosedIsEmpty }
{}

/// Over all streams the frames released are those rendered, padding, reset and dropped.
#[tactic(auto, using(crate::proofs::Counting::totals))]
pub fn totals()
    ensures { Totals }
{}

/// The tally is how many frames were rendered, reset and dropped, over all streams. Each count saturates at MAX_TALLY.
#[tactic(auto, using(crate::proofs::Counting::tallies))]
pub fn tallies()
    ensures { Tallies }
{}

/// Each client has one stream at most, and nothing is released if there is none.
#[tactic(auto, using(crate::proofs::Clients::each_client_once))]
pub fn each_client_once()
    ensures { EachClientOnce }
{}

/// Streams are in the order of their clients, each endpoint has one playhead, a closed stream is still, and what is
/// picked is there.
pub fn stage_holds()
    ensures { StageHolds }
{}

/// Between periods nothing is picked.
#[tactic(auto, using(crate::proofs::Stages::rests_between))]
pub fn rests_between()
    ensures { RestsBetween }
{}

/// At any moment no stream has more picked than the period that is under way has frames.
#[tactic(auto, using(crate::proofs::Stages::picks_fit))]
pub fn picks_fit()
    ensures { PicksFit }
{}

/// The padding of a stream is frames of its channels, samples of 16 bits, if such frames alone are released.
#[tactic(auto, using(crate::proofs::StageHolds::frames_fit))]
pub fn frames_fit()
    ensures { FramesFit }
{}

/// The frames of a Sound are as many as its period has, each of 16 bits a channel, and each is the mix of the frames
/// that are due there.
pub fn mix_sums()
    ensures { MixSums }
{}

/// Each place that an endpoint has played was mixed by one whole period, which summed the frames that are rendered
/// there.
#[tactic(auto, using(crate::proofs::EachPlaceOnce::each_place_once))]
pub fn each_place_once()
    ensures { EachPlaceOnce }
{}

/// The same, with the period itself: none before it and none after it mixed the place, and what it wrote there is the
/// mix of the frames that are rendered there.
#[tactic(auto, using(crate::proofs::EachPlaceOnce::one_sound))]
pub fn one_sound()
    ensures { OneSound }
{}

/// From the next place of an endpoint on no whole period mixed a place, and no frame is rendered there.
pub fn nothing_ahead()
    ensures { NothingAhead }
{}

/// A period with nothing between its sub-steps is woven, and changes each stream by itself.
pub fn period_is_one_map()
    ensures { PeriodIsOneMap }
{}

/// So is a period of an endpoint that captures.
#[tactic(auto, using(crate::proofs::Feeds::capture_is_one_map))]
pub fn capture_is_one_map()
    ensures { CaptureIsOneMap }
{}

/// The places of a stream's rendered frames rise.
#[tactic(auto, using(crate::proofs::PlacesRise::places_rise))]
pub fn places_rise()
    ensures { PlacesRise }
{}

/// What waits in a stream are the packets of its book that are pending, and its counts are those of the book.
#[tactic(auto, using(crate::proofs::Books::booked))]
pub fn booked()
    ensures { Booked }
{}

/// The packets that were read are those that are marked so, in the order in which they were offered.
#[tactic(auto, using(crate::proofs::ReadOrder::read_in_order))]
pub fn read_in_order()
    ensures { ReadInOrder }
{}

/// A stream that hears an endpoint is offered what one Sound of it wrote, one that records it what its device gave,
/// and one that plays nothing.
pub fn packets_come_from()
    ensures { PacketsComeFrom }
{}

/// From its close on nothing is released to a stream, no frame of it gets a fate, and no period sums one.
pub fn silence()
    ensures { Silence }
{}

/// A period is the same without the streams of released clients, which are closed.
#[tactic(auto, using(crate::proofs::Presence::present_is_whole))]
pub fn present_is_whole()
    ensures { PresentIsWhole }
{}

/// The streams that are present go through moves as they do among all.
#[tactic(auto, using(crate::proofs::Presence::present_goes_on))]
pub fn present_goes_on()
    ensures { PresentGoesOn }
{}

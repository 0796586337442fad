//! What holds of the spelling of events: each function's contract is a law, and its body is empty.

ghost use Rattle.call_wire.specs.Laws.{ReadingUndoesSpelling, SpellingUndoesReading, FieldsTellKinds};
ghost use Rattle.call_wire.specs.Laws.{OneSpelling, FrontsAreApart, IncompleteHasNone, BegunStays, MalformedStays};
ghost use Rattle.call_wire.specs.Laws.{OneCut, CutIsLongest, CutsJoin};

/// What an event spells is read again.
pub fn reading_undoes_spelling()
    ensures { ReadingUndoesSpelling }
{}

/// Bytes in which an event's fields are read are what the event spells.
pub fn spelling_undoes_reading()
    ensures { SpellingUndoesReading }
{}

/// The fields of an event tell their kinds.
pub fn fields_tell_kinds()
    ensures { FieldsTellKinds }
{}

/// No spelling begins another, and no two events share one.
pub fn one_spelling()
    ensures { OneSpelling }
{}

/// Bytes are an incomplete prefix, begin an event or are malformed: no two of these.
pub fn fronts_are_apart()
    ensures { FrontsAreApart }
{}

/// An incomplete prefix holds no event.
pub fn incomplete_has_none()
    ensures { IncompleteHasNone }
{}

/// An event at the front stays there, whatever follows.
pub fn begun_stays()
    ensures { BegunStays }
{}

/// A malformed front stays malformed, whatever follows.
pub fn malformed_stays()
    ensures { MalformedStays }
{}

/// The cut of an input is the only one.
pub fn one_cut()
    ensures { OneCut }
{}

/// The cut of an input has all events that are at its front.
pub fn cut_is_longest()
    ensures { CutIsLongest }
{}

/// Events, and a cut of what is behind them, are a cut of the whole.
pub fn cuts_join()
    ensures { CutsJoin }
{}

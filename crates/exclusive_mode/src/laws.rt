//! What holds of claims: each function's contract is a law, and its body is empty.

ghost use Rattle.exclusive_mode.specs.Laws.{ExclusiveIsAlone, OneCode, RefusedTakesNothing, SharedTakesNothing};
ghost use Rattle.exclusive_mode.specs.Laws.{ToldApart, UnusedIsGranted};

/// An endpoint without streams is for whoever asks.
pub fn unused_is_granted()
    ensures { UnusedIsGranted }
{}

/// Beside an exclusive stream there is no other.
pub fn exclusive_is_alone()
    ensures { ExclusiveIsAlone }
{}

/// One that asks for a shared stream takes nothing over.
pub fn shared_takes_nothing()
    ensures { SharedTakesNothing }
{}

/// One that is refused takes nothing over.
pub fn refused_takes_nothing()
    ensures { RefusedTakesNothing }
{}

/// A claim is refused exactly where the endpoint is in use, and takes over exactly where that is said.
pub fn told_apart()
    ensures { ToldApart }
{}

/// A claim is refused with one code.
pub fn one_code()
    ensures { OneCode }
{}

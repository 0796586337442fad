//! What holds after every list of steps: each function's contract is a law, and its body is empty.

ghost use Rattle.ducking.specs.Laws.{CountIsOfLastRows, LastRowStands, LastRuleStands, LevelIsOfLastRows};

/// The book has of each session the row that was set last, unless it was removed since.
pub fn last_row_stands()
    ensures { LastRowStands }
{}

/// The book has the rule that was set last.
pub fn last_rule_stands()
    ensures { LastRuleStands }
{}

/// The duck level of a session is that of the last rule if, by the last rows, the session is no communications session
/// and has not opted out and another one is an active communications session. Else it is the highest.
pub fn level_is_of_last_rows()
    ensures { LevelIsOfLastRows }
{}

/// The count is how many active communications sessions there are by the last rows.
pub fn count_is_of_last_rows()
    ensures { CountIsOfLastRows }
{}

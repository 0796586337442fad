//! The session that a new stream joins.

ghost use Rattle.std.specs.Prelude.{◌≡◌, ◌≤◌, None, length};
ghost use Rattle.ca_base.specs.declared.limits.TheConstants.{MAX_CONNECTION_NAME};
ghost use Rattle.ca_base.specs.Rows.{first};
ghost use Rattle.wave_format.specs.Format.{IsValid};
ghost use Rattle.session_manager.specs.Rows.{join_rows};
ghost use Rattle.service_book.specs.Openings.{Joins};

use crate::{Book, Opening, OpeningPlan};
use ca_base::SessionNo;

impl Book {
    /// The session that a stream joins, which is a new one if there is none.
    pub fn join(&mut self, x: &Opening, plan: &OpeningPlan) -> SessionNo
        requires free { first (join_rows plan.now.key self.old.sessions) ≡ None }
        requires format { IsValid plan.now.format }
        requires name { length plan.now.key.name ≤ MAX_CONNECTION_NAME }
        ensures { Joins x.now plan.now self.old result self.new }
    {
        self.levels_changed = true;
        self.sessions
            .join(&plan.key, None, x.is_kept(), plan.format.channels)
    }
}

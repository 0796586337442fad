//! Notices that come.

ghost use Rattle.std.specs.Prelude.{◌≡◌};
ghost use Rattle.event_notices.specs.Notices.{pushed, pushed_all};

use crate::matching::is_matched;
use crate::{Notice, NoticeQueue};

impl NoticeQueue {
    /// Keeps a notice if a registration is for it. If 256 are kept, the oldest is lost. It takes no memory.
    pub fn push(&mut self, n: &Notice)
        ensures { self.new ≡ pushed n.now self.old }
    {
        if !is_matched(&self.registrations, n) {
            return;
        }
        if self.kept.is_full() {
            self.lost = self.lost.saturating_add(1);
        }
        self.kept.push_back(*n);
    }

    /// Pushes these notices, in order.
    pub fn push_all(&mut self, ns: &[Notice])
        ensures { self.new ≡ pushed_all ns.now self.old }
    {
        let _made = self.made;
        for n in ns {
            self.push(n);
        }
    }
}

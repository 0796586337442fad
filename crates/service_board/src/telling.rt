//! What is told of an event: every connection keeps the notices that it registered for.

ghost use Rattle.std.specs.Prelude.{◌≡◌, ℕ, map};
ghost use Rattle.ca_stage.specs.Stage.{BufferData};
ghost use Rattle.ca_stage.specs.Tally.{Tally};
ghost use Rattle.event_notices.specs.Notices.{pushed_all};
ghost use Rattle.ca_machine.specs.Notices.{noted};
ghost use Rattle.service_book.specs.Telling.{setting_notices_by, step_notices};
ghost use Rattle.service_board.specs.Board.{state_of};
ghost use Rattle.service_board.specs.InOrder.{InOrder};

use crate::Board;
use buffer_ring::EngineSide;
use ca_model::{Call, Event};
use event_notices::{Notice, NoticeQueue};
use service_book::{put_note, put_step};
use step_notices::Noted;

/// Pushes these notices to each queue.
fn push_to_each(queues: &mut [NoticeQueue], ns: &[Notice])
    ensures { queues.new ≡ map (pushed_all ns.now) queues.old }
{
    for q in queues.iter_mut() {
        q.push_all(ns);
    }
}

impl<D, E: EngineSide> Board<D, E> {
    /// Pushes the drafts to every connection.
    fn push_drafts(&mut self)
        ensures told { self.new ≡ record self.old {
          book = record (self.old.book) { notices = self.new.book.notices };
        } }
        ensures notices { self.new.book.notices.items
            ≡ map (pushed_all self.old.drafts.items) self.old.book.notices.items }
    {
        push_to_each(&mut self.book.notices, &self.drafts);
    }

    /// Tells an event, by what was noted before it: every connection keeps what it registered for. It takes no memory.
    pub fn tell(&mut self, before: &Noted, ev: &Event)
        requires order { InOrder E.state self.old }
        ensures told { self.new ≡ record self.old {
          book = record (self.old.book) { notices = self.new.book.notices };
          drafts = self.new.drafts;
        } }
        ensures notices { (datas : ℕ → BufferData) (tally : Tally) → self.new.book.notices.items
            ≡ map (pushed_all (step_notices before.now ev.now (noted (state_of datas tally self.old))))
            self.old.book.notices.items }
        ensures order { InOrder E.state self.new }
    {
        let after = self.noted();
        put_step(before, ev, &after, &mut self.drafts);
        self.push_drafts();
    }

    /// Tells a period whose device failed, by what was noted before it: every connection keeps what it registered for.
    /// It takes no memory.
    pub fn tell_failed(&mut self, ev: &Event)
        requires order { InOrder E.state self.old }
        ensures told { self.new ≡ record self.old {
          book = record (self.old.book) { notices = self.new.book.notices };
          drafts = self.new.drafts;
        } }
        ensures notices { (datas : ℕ → BufferData) (tally : Tally) → self.new.book.notices.items
            ≡ map (pushed_all (step_notices self.old.failed ev.now (noted (state_of datas tally self.old))))
            self.old.book.notices.items }
        ensures order { InOrder E.state self.new }
    {
        let after = self.noted();
        put_step(&self.failed, ev, &after, &mut self.drafts);
        self.push_drafts();
    }

    /// Tells a call that set a session, by the volume that the session had before it: every connection keeps the
    /// notice, if it registered for it. It takes no memory.
    pub fn tell_setting(&mut self, call: &Call, was: u64)
        requires order { InOrder E.state self.old }
        ensures told { self.new ≡ record self.old {
          book = record (self.old.book) { notices = self.new.book.notices };
          drafts = self.new.drafts;
        } }
        ensures notices { (datas : ℕ → BufferData) (tally : Tally) → self.new.book.notices.items
            ≡ map (pushed_all (setting_notices_by call.now was (state_of datas tally self.old)))
            self.old.book.notices.items }
        ensures order { InOrder E.state self.new }
    {
        let note = self.book.setting_note(call, was);
        self.drafts.clear();
        put_note(note, &mut self.drafts);
        self.push_drafts();
    }
}

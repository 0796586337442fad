//! Who answers events.

ghost use Rattle.std.specs.Prelude.{◌≡◌, ℕ, ◌≤◌, [], length, IsOk, OnOk, OnErr};
ghost use Rattle.ca_model.specs.declared.event.Event.{Event as TheEvent};
ghost use Rattle.ca_model.specs.declared.reply.Reply.{Reply as TheReply};
ghost use Rattle.ca_model.specs.Replies.{FitsFrame, IsSameReply};

use ca_base::NoMemory;
use ca_model::{Event, Reply};

/// What answers events: a state that goes on with each event.
pub trait Desk: Drop {
    /// From the old state, the event may get this reply and lead to the new state.
    ghost answers: { Self → TheEvent → TheReply → Self → Type 0 };

    /// What may have changed if memory ran out and the event wasn't taken.
    ghost stays: { Self → Self → Type 0 };

    /// How many bytes the payload of the reply to an event has at most.
    ghost reply_room: { Self → TheEvent → ℕ };

    /// Answers one event into `out`, whose payload is empty before. It answers Ok if the payload's capacity is at least
    /// the reply's room. After `NoMemory` the event wasn't taken, and the reply is as before.
    fn ask(&mut self, ev: &Event, out: &mut Reply) -> Result<(), NoMemory>
        requires { out.old.payload.list ≡ [] }
        ensures step { OnOk result (answers self.old ev.now out.new self.new) }
        ensures within { OnOk result (length out.new.payload.list ≤ reply_room self.old ev.now) }
        ensures frame { OnOk result (FitsFrame out.new) }
        ensures keeps { out.old.payload.capacity ≤ out.new.payload.capacity }
        ensures fits { reply_room self.old ev.now ≤ out.old.payload.capacity → IsOk result }
        ensures stays { OnErr result (stays self.old self.new) }
        ensures err { OnErr result (IsSameReply out.old out.new) };
}

//! What is told of an event, by what was noted before it and after it; and what is told of a call that set a session.

ghost use Rattle.std.specs.Prelude.{◌≡◌, ◌+◌, ◌≤◌, ◌++◌, length, option_to_list};
ghost use Rattle.std.specs.Vec.{vec_capacity};
ghost use Rattle.ca_base.specs.declared.limits.TheConstants.{NOTICES};
ghost use Rattle.event_notices.specs.declared.kinds.TheConstants.{DEVICE_PROPERTY};
ghost use Rattle.step_notices.specs.Changes.{note};
ghost use Rattle.ca_stage.specs.Stage.{Stage};
ghost use Rattle.ca_stage.specs.Tally.{Tally};
ghost use Rattle.ca_machine.specs.Notices.{property_notices, session_note, volume_at, volume_of};
ghost use Rattle.service_book.specs.BookState.{book_state};
ghost use Rattle.service_book.specs.Telling.{setting_notices_by, step_notices, volume_change};

use crate::Book;
use ca_base::{EndpointNo, Guid, SessionNo, Text};
use ca_model::{Call, DeviceEvent, Event};
use event_notices::Notice;
use event_notices::kinds::{
    CHANNEL_VOLUME, DEVICE_PROPERTY, DISPLAY_NAME, GROUPING, ICON_PATH, PROPERTY_EXCLUSIVE,
    PROPERTY_FORMAT, PROPERTY_NAME, SIMPLE_VOLUME,
};
use session_manager::{Session, guid_text};
use step_notices::{Noted, put_device_notices, put_session_notices};

/// A notice of a session, in the context of the call that made it.
fn session_note(kind: u8, session: SessionNo, context: Guid, value: u64, text: Text) -> Notice
    ensures { result ≡ session_note kind session.0 context value text }
{
    Notice {
        kind,
        subject: session.0,
        context,
        value,
        text,
    }
}

/// Adds what a device event itself tells: that it changed a property of an endpoint.
fn put_property(ev: &Event, out: &mut Vec<Notice>)
    requires { length out.old.items + 1 ≤ vec_capacity out.old }
    ensures items { out.new.items ≡ out.old.items ++ property_notices ev.now }
    ensures few { length out.new.items ≤ length out.old.items + 1 }
    ensures room { vec_capacity out.new ≡ vec_capacity out.old }
{
    match ev {
        Event::Device {
            event: DeviceEvent::SetFormat { endpoint, .. },
        } => out.push_reserved(property_note(*endpoint, PROPERTY_FORMAT)),
        Event::Device {
            event: DeviceEvent::SetExclusive { endpoint, .. },
        } => out.push_reserved(property_note(*endpoint, PROPERTY_EXCLUSIVE)),
        Event::Device {
            event: DeviceEvent::SetName { endpoint, .. },
        } => out.push_reserved(property_note(*endpoint, PROPERTY_NAME)),
        _ => {}
    }
}

/// A notice that a property of an endpoint has changed.
fn property_note(e: EndpointNo, property: u64) -> Notice
    ensures { result ≡ note DEVICE_PROPERTY e.0 property }
{
    Notice {
        kind: DEVICE_PROPERTY,
        subject: e.0 as u64,
        context: Guid(0),
        value: property,
        text: Text::new(&[]),
    }
}

/// Puts what is told of an event in place of what stood in `out`, by what was noted before the event and after it.
pub fn put_step(before: &Noted, ev: &Event, after: &Noted, out: &mut Vec<Notice>)
    requires { NOTICES ≤ vec_capacity out.old }
    ensures items { out.new.items ≡ step_notices before.now ev.now after.now }
    ensures room { vec_capacity out.new ≡ vec_capacity out.old }
{
    out.clear();
    put_device_notices(before, after, out);
    put_property(ev, out);
    put_session_notices(before, after, out);
}

/// A session's level and mute in one number.
fn volume_of(s: &Session) -> u64
    ensures { result ≡ volume_of s.now }
{
    s.level as u64 * 2 + s.mute as u64
}

/// The notice of a level or a mute, if the volume is another one than it was.
fn volume_note(session: SessionNo, context: Guid, was: u64, now: u64) -> Option<Notice>
    ensures { option_to_list result ≡ volume_change session.0 context was now }
{
    if was == now {
        return None;
    }
    let text = Text::new(&[]);
    Some(session_note(SIMPLE_VOLUME, session, context, now, text))
}

/// Adds a notice, if there is one.
pub fn put_note(note: Option<Notice>, out: &mut Vec<Notice>)
    requires { length out.old.items + 1 ≤ vec_capacity out.old }
    ensures items { out.new.items ≡ out.old.items ++ option_to_list note }
    ensures room { vec_capacity out.new ≡ vec_capacity out.old }
{
    if let Some(n) = note {
        out.push_reserved(n);
    }
}

impl Book {
    /// The level and the mute of a session in one number, 0 if it isn't there.
    pub fn volume_of(&self, session: SessionNo) -> u64
        ensures { (stage : Stage) (tally : Tally) →
            result ≡ volume_at session.0 (book_state self.now stage tally) }
    {
        match self.sessions.get(session) {
            Some(s) => volume_of(s),
            None => 0,
        }
    }

    /// The notice of a call that set a session, by the volume that the session had before it.
    pub fn setting_note(&self, call: &Call, was: u64) -> Option<Notice>
        ensures { (stage : Stage) (tally : Tally) →
            option_to_list result ≡ setting_notices_by call.now was (book_state self.now stage tally) }
    {
        match call {
            Call::SetMaster {
                session,
                context,
                ..
            } => volume_note(*session, *context, was, self.volume_of(*session)),
            Call::SetMute {
                session,
                context,
                ..
            } => volume_note(*session, *context, was, self.volume_of(*session)),
            Call::SetChannel {
                session,
                channel,
                level,
                context,
            } => {
                let value = (*channel as u64) << 32 | *level as u64;
                let text = Text::new(&[]);
                Some(session_note(CHANNEL_VOLUME, *session, *context, value, text))
            }
            Call::SetDisplayName {
                session,
                context,
                text,
            } => Some(session_note(DISPLAY_NAME, *session, *context, 0, *text)),
            Call::SetIconPath {
                session,
                context,
                text,
            } => Some(session_note(ICON_PATH, *session, *context, 0, *text)),
            Call::SetGrouping {
                session,
                grouping,
                context,
            } => {
                let text = guid_text(*grouping);
                Some(session_note(GROUPING, *session, *context, 0, text))
            }
            _ => None,
        }
    }
}

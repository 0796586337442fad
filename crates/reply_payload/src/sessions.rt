//! What is told of sessions (IAudioSessionEnumerator, IAudioSessionControl2).

ghost use Rattle.std.specs.Prelude.{◌≡◌, ◌+◌, ◌≤◌, [], ◌++◌, length};
ghost use Rattle.ca_base.specs.declared.limits.TheConstants.{SESSIONS};
ghost use Rattle.session_manager.specs.Book.{IsSession};
ghost use Rattle.session_manager.specs.Sessions.{numbers_on};
ghost use Rattle.ca_machine.specs.Sessions.{levels_payload, numbers_payload, session_numbers, session_payload};
ghost use Rattle.reply_payload.specs.declared.payload.TheConstants.{REPLY_ROOM};

use crate::payload::REPLY_ROOM;
use crate::pieces::{flag, put_text};
use ca_base::limits::MAX_LEVEL;
use ca_base::{Bytes, EndpointNo, Text};
use session_manager::{Session, SessionBook};

/// Puts levels: how many, and each.
fn put_levels(levels: &[u32], out: &mut Bytes)
    requires few { length levels.now ≤ 4 }
    requires room { length out.old.list + 20 ≤ out.old.capacity }
    ensures list { out.new.list ≡ out.old.list ++ levels_payload levels.now }
    ensures within { length out.new.list ≤ length out.old.list + 20 }
    ensures keeps { out.old.capacity ≤ out.new.capacity }
{
    out.append_reserved(&(levels.len() as u32).to_le_bytes());
    'levels: for level in levels.iter() {
        out.append_reserved(&level.to_le_bytes());
    }
}

/// Puts the numbers of a session's data: 55 bytes at most.
fn put_numbers(s: &Session, state: u8, out: &mut Bytes)
    requires session { IsSession s.now }
    requires empty { out.old.list ≡ [] }
    requires room { 55 ≤ out.old.capacity }
    ensures list { out.new.list ≡ session_numbers state s.now }
    ensures within { length out.new.list ≤ 55 }
    ensures keeps { out.old.capacity ≤ out.new.capacity }
{
    out.append_reserved(&s.key.endpoint.0.to_le_bytes());
    out.append_reserved(&s.key.process.to_le_bytes());
    out.append_reserved(&[state]);
    out.append_reserved(&s.level.to_le_bytes());
    out.append_reserved(&[flag(s.mute)]);
    put_levels(&s.channels[..s.count as usize], out);
    out.append_reserved(&MAX_LEVEL.to_le_bytes());
    out.append_reserved(&[flag(s.optout)]);
    out.append_reserved(&s.grouping.0.to_be_bytes());
}

/// Puts a session's data, with its state.
pub fn put_session(s: &Session, state: u8, out: &mut Bytes)
    requires session { IsSession s.now }
    requires empty { out.old.list ≡ [] }
    requires room { REPLY_ROOM ≤ out.old.capacity }
    ensures list { out.new.list ≡ session_payload state s.now }
    ensures within { length out.new.list ≤ REPLY_ROOM }
    ensures keeps { out.old.capacity ≤ out.new.capacity }
{
    put_numbers(s, state, out);
    put_text(&s.identifier(), out);
    put_text(&s.instance(), out);
    put_text(&s.display, out);
    put_text(&s.icon, out);
}

/// How many sessions an endpoint has.
fn count_on(list: &[Session], e: EndpointNo) -> u32
    requires { length list.now ≤ SESSIONS }
    ensures { result ≡ length (numbers_on e.0 list.now) }
{
    let mut count = 0;
    'sessions: for s in list.iter() {
        if s.key.endpoint == e {
            count += 1;
        }
    }
    count
}

/// Puts how many sessions an endpoint has, and their numbers, in the order in which they were made.
pub fn put_sessions_of(sessions: &SessionBook, e: EndpointNo, out: &mut Bytes)
    requires empty { out.old.list ≡ [] }
    requires room { REPLY_ROOM ≤ out.old.capacity }
    ensures list { out.new.list ≡ numbers_payload (numbers_on e.0 sessions.now.list) }
    ensures within { length out.new.list ≤ REPLY_ROOM }
    ensures keeps { out.old.capacity ≤ out.new.capacity }
{
    out.append_reserved(&count_on(sessions.sessions(), e).to_le_bytes());
    sessions.enumerate(e, out);
}

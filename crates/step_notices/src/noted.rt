//! What is noted of the state of the service.

ghost use Rattle.std.specs.Prelude.{◌≡◌, ◌<◌, ◌≤◌, [], ◌∷◌, ◌++◌, length, slice_index, slice_set};
ghost use Rattle.step_notices.specs.Notes.{no_notes};

use crate::{DEFAULTS, NotedEndpoint, NotedSession, NotedStream};
use arrayvec::ArrayVec;
use ca_base::limits::{CLIENTS, ENDPOINTS, SESSIONS};
use std::marker::Model;

/// The endpoints, the defaults, the sessions and the streams of one moment, in the order in which they were noted. They
/// lie in the value itself: no memory is taken.
#[derive(Drop)]
pub struct Noted {
    endpoints: ArrayVec<NotedEndpoint, ENDPOINTS>,
    defaults: [u32; DEFAULTS],
    sessions: ArrayVec<NotedSession, SESSIONS>,
    streams: ArrayVec<NotedStream, CLIENTS>,
}

impl Model for Noted {
    ghost use Rattle.step_notices.specs.Notes.{Notes};
    ghost use Rattle.step_notices.specs.Limits.{IsNoted};

    ghost Value = { Notes };

    ghost view = { λ n. record {
      endpoints = n.endpoints.items;
      defaults = n.defaults;
      sessions = n.sessions.items;
      streams = n.streams.items;
    } };

    ghost invariant = { IsNoted };
}

impl Noted {
    /// Nothing, and no default.
    pub fn new() -> Noted
        ensures { result ≡ no_notes }
    {
        Noted {
            endpoints: ArrayVec::new(),
            defaults: [0; DEFAULTS],
            sessions: ArrayVec::new(),
            streams: ArrayVec::new(),
        }
    }

    /// Notes one more endpoint.
    pub fn note_endpoint(&mut self, e: NotedEndpoint)
        requires { length self.old.endpoints < ENDPOINTS }
        ensures { self.new ≡ record self.old { endpoints = self.old.endpoints ++ e ∷ [] } }
    {
        self.endpoints.push(e);
    }

    /// Notes the default endpoint of a place, by flow * 3 + role, 0 for none.
    pub fn note_default(&mut self, place: usize, endpoint: u32)
        requires { place < DEFAULTS }
        ensures { self.new ≡ record self.old { defaults = slice_set self.old.defaults place endpoint } }
    {
        self.defaults[place] = endpoint;
    }

    /// Notes one more session.
    pub fn note_session(&mut self, s: NotedSession)
        requires { length self.old.sessions < SESSIONS }
        ensures { self.new ≡ record self.old { sessions = self.old.sessions ++ s ∷ [] } }
    {
        self.sessions.push(s);
    }

    /// Notes the stream of one more client.
    pub fn note_stream(&mut self, s: NotedStream)
        requires { length self.old.streams < CLIENTS }
        ensures { self.new ≡ record self.old { streams = self.old.streams ++ s ∷ [] } }
    {
        self.streams.push(s);
    }

    pub(crate) fn endpoints(&self) -> &[NotedEndpoint]
        ensures value { result.now ≡ self.now.endpoints }
        ensures few { length self.now.endpoints ≤ ENDPOINTS }
    {
        self.endpoints.as_slice()
    }

    /// The default endpoint of a place, 0 for none.
    pub(crate) fn default_at(&self, place: usize) -> u32
        requires { place < DEFAULTS }
        ensures { result ≡ slice_index self.now.defaults place }
    {
        self.defaults[place]
    }

    pub(crate) fn sessions(&self) -> &[NotedSession]
        ensures value { result.now ≡ self.now.sessions }
        ensures few { length self.now.sessions ≤ SESSIONS }
    {
        self.sessions.as_slice()
    }

    pub(crate) fn streams(&self) -> &[NotedStream]
        ensures value { result.now ≡ self.now.streams }
        ensures few { length self.now.streams ≤ CLIENTS }
    {
        self.streams.as_slice()
    }
}

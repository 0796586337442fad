//! What is noted of the book, before and after an event, for the notices that the event makes.

ghost use Rattle.std.specs.Prelude.{◌≡◌, ◌<◌, [], map};
ghost use Rattle.ca_stage.specs.Stage.{Stage};
ghost use Rattle.ca_stage.specs.Tally.{Tally};
ghost use Rattle.step_notices.specs.declared.records.TheConstants.{DEFAULTS};
ghost use Rattle.step_notices.specs.Notes.{no_notes};
ghost use Rattle.ca_machine.specs.Notices.{default_number, noted_endpoint, noted_session};
ghost use Rattle.service_book.specs.BookState.{book_state};
ghost use Rattle.service_book.specs.Telling.{defaults_of};

use crate::Book;
use ca_base::Flow;
use step_notices::{DEFAULTS, Noted, NotedEndpoint, NotedSession};

impl Book {
    /// Notes each endpoint.
    fn note_endpoints(&self, n: &mut Noted)
        requires { n.old.endpoints ≡ [] }
        ensures { n.new ≡ record n.old { endpoints = map noted_endpoint self.now.registry.list } }
    {
        let endpoints = self.registry.endpoints();
        'endpoints: for e in endpoints.iter() {
            n.note_endpoint(NotedEndpoint {
                no: e.no,
                state: e.state,
            });
        }
    }

    /// The number of the default endpoint of a place, which is flow * 3 + role; 0 if there is none.
    fn default_number(&self, place: usize) -> u32
        requires { place < DEFAULTS }
        ensures { (stage : Stage) (tally : Tally) → result ≡ default_number (book_state self.now stage tally) place }
    {
        let (flow, role) = if place < 3 {
            (Flow::Render, place)
        } else {
            (Flow::Capture, place - 3)
        };
        match self.choices.default_of(&self.registry, flow, role as u8) {
            Ok(e) => e.0,
            Err(_) => 0,
        }
    }

    /// Notes the default of each place.
    fn note_defaults(&self, n: &mut Noted)
        requires { n.old.defaults ≡ no_notes.defaults }
        ensures { n.new ≡ record n.old { defaults = defaults_of self.now } }
    {
        'places: for place in 0..DEFAULTS {
            n.note_default(place, self.default_number(place));
        }
    }

    /// Notes each session.
    fn note_sessions(&self, n: &mut Noted)
        requires { n.old.sessions ≡ [] }
        ensures { n.new ≡ record n.old { sessions = map noted_session self.now.sessions.list } }
    {
        let sessions = self.sessions.sessions();
        'sessions: for s in sessions.iter() {
            n.note_session(NotedSession {
                no: s.no,
                endpoint: s.key.endpoint,
            });
        }
    }

    /// Notes the endpoints, the defaults and the sessions.
    pub fn note(&self, n: &mut Noted)
        requires { n.old ≡ no_notes }
        ensures { n.new ≡ record no_notes {
          endpoints = map noted_endpoint self.now.registry.list;
          defaults = defaults_of self.now;
          sessions = map noted_session self.now.sessions.list;
        } }
    {
        self.note_endpoints(n);
        self.note_defaults(n);
        self.note_sessions(n);
    }
}

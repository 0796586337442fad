//! What the service keeps of connections, clients, endpoints and sessions.

ghost use Rattle.std.specs.Prelude.{◌≡◌, IfOk, replicate};
ghost use Rattle.ca_base.specs.declared.limits.TheConstants.{CONNECTIONS};
ghost use Rattle.event_notices.specs.Notices.{no_notices};
ghost use Rattle.service_book.specs.New.{IsEmptyBook};

use ca_base::NoMemory;
use ca_base::limits::{CLIENTS, CONNECTIONS};
use ca_machine::{Client, Connection};
use device_registry::Registry;
use event_notices::NoticeQueue;
use role_defaults::Choices;
use session_manager::SessionBook;
use std::alloc::Global;

/// Connections, clients, endpoints, sessions and notices. The lists stand in the order in which their things came.
#[derive(Drop)]
pub struct Book {
    pub connections: Vec<Connection>,
    pub clients: Vec<Client>,
    pub registry: Registry,
    /// Which endpoint was chosen as the default of a flow and a role.
    pub choices: Choices,
    pub sessions: SessionBook,
    /// By the number of a connection, from 1: what it registered for, and the notices that it keeps.
    pub notices: Vec<NoticeQueue>,
    /// Whether the service was shut down.
    pub is_shut: bool,
    /// How many clients were ever made.
    pub clients_made: u64,
    /// Whether a level was set, or a stream joined a session, since the gains of the entries were computed.
    pub levels_changed: bool,
}

/// An empty list of notices for each number that a connection may have.
fn new_notices(alloc: Global) -> Result<Vec<NoticeQueue>, NoMemory>
    ensures { IfOk result (λ v. v.items ≡ replicate CONNECTIONS no_notices) }
{
    let mut all = Vec::with_capacity(alloc, CONNECTIONS as usize)?;
    'all: while all.len() < CONNECTIONS as usize {
        all.push_reserved(NoticeQueue::new(alloc)?);
    }
    Ok(all)
}

impl Book {
    /// A book in which nothing stands. The memory of its tables is taken now.
    pub fn new(alloc: Global) -> Result<Book, NoMemory>
        ensures { IfOk result IsEmptyBook }
    {
        Ok(Book {
            connections: Vec::with_capacity(alloc, CONNECTIONS as usize)?,
            clients: Vec::with_capacity(alloc, CLIENTS)?,
            registry: Registry::new(alloc)?,
            choices: Choices::new(),
            sessions: SessionBook::new(alloc)?,
            notices: new_notices(alloc)?,
            is_shut: false,
            clients_made: 0,
            levels_changed: false,
        })
    }
}

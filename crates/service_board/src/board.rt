//! The board: the control state of the service, with the engine's ends of the streams.

ghost use Rattle.std.specs.Prelude.{◌≡◌, IfErr, IfOk};
ghost use Rattle.service_board.specs.New.{IsNewBoard};

use buffer_ring::EngineSide;
use ca_base::limits::{CLIENTS, ENDPOINTS, NOTICES};
use ca_base::{EndpointNo, NoMemory};
use event_notices::Notice;
use period_engine::{Block, StreamEntry};
use service_book::Book;
use std::alloc::Global;
use step_notices::Noted;

/// What the engine keeps of an endpoint: the place of the next frame that it plays, and scratch for its periods.
#[derive(Drop)]
pub struct Seat {
    pub endpoint: EndpointNo,
    pub next: u64,
    pub block: Block,
}

/// What was made for a stream that is to be opened: its store, and scratch for its endpoint's periods if that was
/// planned.
#[derive(Drop)]
pub struct NewStream<E> {
    pub store: E,
    pub block: Option<Block>,
}

/// The devices, the book, a seat for each endpoint in the book's order, the engine's end of each stream in the order of
/// the clients' numbers, and scratch for what is told.
#[derive(Drop)]
pub struct Board<D, E> {
    pub devices: D,
    pub book: Book,
    pub seats: Vec<Seat>,
    pub entries: Vec<StreamEntry<E>>,
    /// The notices of a step, or those that a connection takes, while they are told.
    pub drafts: Vec<Notice>,
    /// What there was of the service before the last period whose device failed, while it is told. It stands here, and
    /// not on the stack, so that a period that is played needn't make room for it.
    pub failed: Noted,
}

impl<D, E: EngineSide> Board<D, E> {
    /// A board over these devices on which nothing is yet. The memory of its tables is taken now; if there is none, the
    /// devices are handed back.
    pub fn new(alloc: Global, devices: D) -> Result<Board<D, E>, (NoMemory, D)>
        ensures new { IfOk result (IsNewBoard E.state devices) }
        ensures back { IfErr result (λ refused. refused.1 ≡ devices) }
    {
        let Ok(book) = Book::new(alloc) else {
            return Err((NoMemory, devices));
        };
        let Ok(seats) = Vec::with_capacity(alloc, ENDPOINTS) else {
            return Err((NoMemory, devices));
        };
        let Ok(entries) = Vec::with_capacity(alloc, CLIENTS) else {
            return Err((NoMemory, devices));
        };
        let Ok(drafts) = Vec::with_capacity(alloc, NOTICES) else {
            return Err((NoMemory, devices));
        };
        Ok(Board {
            devices,
            book,
            seats,
            entries,
            drafts,
            failed: Noted::new(),
        })
    }
}

//! The book: what the service keeps of connections, clients, endpoints and sessions, and what calls and events ask of
//! it alone, without the streams.
#![tactic(auto)]

mod book;
mod clients;
mod endpoint_data;
mod endpoints;
mod formats;
mod gains;
mod leaving;
mod lookups;
mod noting;
mod opening;
mod search;
mod services;
mod sessions;
mod telling;

pub use book::Book;
pub use clients::is_role;
pub use endpoint_data::{
    flow_of, is_wrong_default, is_wrong_enumeration, number_named, put_matching,
};
pub use endpoints::{
    is_text, is_wrong_choice, is_wrong_use, leaves_active, shared_frames, with_exclusive,
    with_format, with_name,
};
pub use formats::{matches, support};
pub use gains::gains_if;
pub use leaving::{drop_client, drop_clients, drop_connection, drop_notices, is_live};
pub use opening::{Opening, OpeningPlan, Sizes};
pub use services::{is_of_other_kind, is_service};
pub use telling::{put_note, put_step};

//! The running engine for C programs (`include/rcu.h` and the headers of `include/rcu`): each
//! export calls a call of `rcu_live`'s engine or of a seat, and states its clauses again. No export
//! makes a fence: round those whose names end in `_unfenced` the header does, by functions of the
//! names without that.
//!
//! A call refuses a handle that is closed (fault 27), or of the other kind (28), before all else,
//! and changes nothing. A call that returns no fault returns what it would for no processor.
#![tactic(auto)]

pub mod barrier_steps;
pub mod barriers;
pub mod callbacks;
pub mod codes;
pub mod contents;
pub mod dealt_seat;
pub mod deferral;
pub mod definition_laws;
pub mod driving;
pub mod engine_box;
pub mod grace_periods;
pub mod handle;
pub mod identity;
mod kept_seats;
pub mod keyed_words;
pub mod laws;
pub mod links;
mod making;
pub mod map_comparing;
pub mod map_laws;
pub mod map_reads;
pub mod map_sizes;
pub mod map_updates;
pub mod open_engine;
pub mod open_replica;
pub mod opening;
pub mod pins;
mod places;
pub mod processors;
pub mod progress;
pub mod raw_box;
pub mod readers;
pub mod refusal;
pub mod replicas;
pub mod requests;
pub mod seat_parts;
pub mod sections;
pub mod sleeps;
pub mod small_map;
pub mod small_runs;
pub mod version;

pub use contents::Contents;
pub use dealt_seat::DealtSeat;
pub use engine_box::EngineBox;
pub use handle::{Handle, Rcu, RcuSeat};
pub use identity::Identity;
pub use keyed_words::KeyedWords;
pub use links::Links;
pub use map_sizes::MapSizes;
pub use open_engine::OpenEngine;
pub use open_replica::OpenReplica;
pub use refusal::Refusal;
pub use replicas::RcuReplica;
pub use seat_parts::SeatParts;

//! A hash map of sorted chains, and a sorted list, over nodes that sections walk without a lock.
#![tactic(auto)]

mod after;
mod bucket;
pub mod compared;
pub mod cursor;
pub mod definition_laws;
pub mod entries;
pub mod entry;
mod joining;
pub mod laws;
mod links;
mod listing;
pub mod map;
pub mod opening;
pub mod put;
mod section;
pub mod shape;
pub mod updater;
mod updater_waits;
mod updates;
pub mod writer;
mod writer_waits;

pub use compared::Compared;
pub use entries::Entries;
pub use entry::Entry;
pub use map::Map;
pub use opening::{Opened, make_plan};
pub use put::{NotPut, Put};
pub use shape::{MapRule, MapSeat, MapShape, MapWatcher};
pub use updater::Updater;
pub use writer::MapWriter;

//! The event core: each event, lists of events, and calls of the state whose growth is refused.

mod callbacks;
mod epochs;
mod idle;
mod lists;
mod machine;
mod most;
mod state;
mod steps;
mod way_out;

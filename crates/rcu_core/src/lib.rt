//! The events of the engine, its replies, the meaning of a history of events, and the machine that
//! takes them.
#![tactic(auto)]

pub mod cpu_list;
pub mod definition_laws;
pub mod event;
pub mod event_core;
pub mod laws;
pub mod progress;
pub mod reply;
pub mod run_laws;
pub mod value_list;
pub mod version_laws;
pub mod way_out;

pub use cpu_list::CpuList;
pub use event::Event;
pub use event_core::Core;
pub use rcu_state::{CurrentAnswer, GpState, Turned, gp_state};
pub use reply::Reply;
pub use value_list::ValueList;

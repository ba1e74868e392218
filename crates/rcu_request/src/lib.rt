//! Requests for grace periods: a thread requests without a lock, and the driver finds the greatest
//! request, or sleeps until a thread has to wake it. The driver also sleeps so while a processor is
//! awaited.
#![tactic(auto)]

pub mod definition_laws;
pub mod gp_requests;
pub mod knowledge;
pub mod laws;
mod request_words;
pub mod requester;
mod rule;

pub use gp_requests::GpRequests;
pub use knowledge::Knowledge;
pub use request_words::RequestWords;
pub use requester::Requester;

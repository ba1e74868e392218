//! Lines of bytes: from a reader, through a responder, to a writer.
#![tactic(auto)]

pub mod block_writer;
pub mod laws;
pub mod line_buffer;
pub mod line_loop;
pub mod line_shape;
pub mod printing;
pub mod std_streams;
pub mod streams;
pub mod words;

pub use block_writer::{BlockWriter, Output};
pub use line_buffer::LineBuffer;
pub use line_loop::{Responder, StreamFault, run};
pub use line_shape::{Line, is_well_formed};
pub use printing::{put_counts, put_line, put_numbered, put_spaced};
pub use std_streams::Marked;
pub use streams::{Failed, Sink, Source};
pub use words::{next_word, number};

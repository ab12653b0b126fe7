//! What may the program ask of the outside: files that it reads, and a sink that its report goes to?
//!
//! Each fault has a cause, a count that rose. The system's own are `FileShelf` and `OutputSink`; those in memory are for tests and laws.
#![tactic(auto)]

mod file_shelf;
mod memory_shelf;
mod memory_sink;
mod output_sink;
mod shelf;
mod sink;

pub use file_shelf::FileShelf;
pub use memory_shelf::MemoryShelf;
pub use memory_sink::MemorySink;
pub use output_sink::OutputSink;
pub use shelf::{Got, Shelf};
pub use sink::{Put, Sink};

//! Where a script comes from and where its answers go: sources and sinks of bytes that count their faults. A contract
//! names the bytes that a source has left and a sink has taken, where they tell them; a fault is answered only where the
//! count rose. It stands on disk_trait and block_model's causes. The layer above uses the traits and `write_all`, a program the adapters
//! of std's readers and writers, and a test the forms in memory, of which it knows which call fails. It has too what a worker
//! sees of a store behind a lock: a `Stepper`, which keeps books of its answers, and a `Gate`.
#![tactic(auto)]

mod empty_job;
mod gate;
mod memory_sink;
mod memory_source;
mod sink;
mod source;
mod stepper;

pub use empty_job::EmptyJob;
pub use gate::{Gate, OpenGate};
pub use memory_sink::MemorySink;
pub use memory_source::MemorySource;
pub use sink::{Sink, SinkFault, WriterSink, write_all};
pub use source::{ReaderSource, Source, SourceFault};
pub use stepper::{Stepper, Turn};

//! What every layer of the desk stands on: days, periods and ids, shared texts and their sizes, the streams
//! and clocks of the outside, with counts of their faults, and a counter of steps.
#![tactic(auto)]

mod bytes_sink;
mod bytes_source;
mod clock;
mod day;
mod decimals;
mod failing_calls;
mod id;
pub mod laws;
mod link;
mod list_clock;
mod load_fault;
mod memory;
mod memory_link;
mod pair;
mod period;
mod reader_source;
mod sink;
mod sizes;
mod source;
mod steps;
#[cfg(test)]
mod tests;
mod text;
mod utc_clock;
mod writer_sink;

pub use bytes_sink::BytesSink;
pub use bytes_source::BytesSource;
pub use clock::Clock;
pub use day::Day;
pub use decimals::decimal_number;
pub use failing_calls::FailingCalls;
pub use id::Id;
pub use link::Link;
pub use list_clock::ListClock;
pub use load_fault::LoadFault;
pub use memory::Memory;
pub use memory_link::MemoryLink;
pub use pair::Pair;
pub use period::Period;
pub use reader_source::ReaderSource;
pub use sink::Sink;
pub use sizes::{DAY_SIZE, ID_SIZE, PERIOD_SIZE, plus_name, plus_text};
pub use source::{Failed, Source, count_fault};
pub use steps::Steps;
pub use text::Text;
pub use utc_clock::UtcClock;
pub use writer_sink::WriterSink;

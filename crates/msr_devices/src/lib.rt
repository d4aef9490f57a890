//! Sources and sinks of bytes that count their failures, and the loops over them.
//!
//! A call that reads or writes through a loop ends after at most 64 interruptions in a row. It answers
//! that the device failed exactly if the device did, so a failure is never taken for the end.
#![tactic(auto)]

mod adapters;
mod device;
mod fault;
mod loops;
mod memory;
mod read_buffer;
mod write_buffer;

pub use adapters::{FromRead, FromWrite};
pub use device::{Sink, Source};
pub use fault::{DeviceFailed, DeviceFault};
pub use loops::{read_some, write_all, write_some};
pub use memory::{Behavior, TestSink, TestSource};
pub use read_buffer::ReadBuffer;
pub use write_buffer::WriteBuffer;

//! Why two inputs are not compared.
use msr_input::ReadFault;
use thiserror::Error;

/// The input that is at fault, and its fault.
#[derive(Clone, Copy, Debug, PartialEq, Eq, Error)]
pub enum CompareFault {
    /// The first one.
    #[error("{0}")]
    One(ReadFault),
    /// The other one.
    #[error("{0}")]
    Other(ReadFault),
}

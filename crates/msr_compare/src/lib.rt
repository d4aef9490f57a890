//! Whether two inputs of miniSEED have the same segments.
#![tactic(auto)]

mod ahead;
mod comparing;
mod comparison;
mod fault;
mod laws;
mod meeting;
mod observer;
mod side;
mod tally;

pub use comparing::{compare, compare_observed};
pub use comparison::{Comparison, Difference, DifferenceKind, SameSegments, Which};
pub use fault::CompareFault;
pub use laws::{compare_has_one_answer, same_is_an_equivalence, same_is_exact};
pub use observer::Observer;

//! Joining rows of samples into segments.
//!
//! A row joins the segment of the row before it if both have the same key and the row begins
//! near the nominal instant of the segment's next sample, counted from the segment's start.
//! Neighbours alone join: rows are never put in another order.
#![tactic(auto)]

mod follow;
mod joiner;
mod laws;
mod span;
mod unequal;

pub use follow::{Follow, OutOfRange, Step};
pub use joiner::{JoinFault, JoinKind, Joiner, Segment};
pub use laws::{
    cuts_grow_by_rows, cuts_keep_segments, followers_stand_with_joiners, overruns_are_out_of_range,
    rows_have_one_division, steps_are_pushes,
};
pub use unequal::{Unequal, first_unequal};

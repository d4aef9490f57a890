//! How the lines of a walk are told.
use crate::task::ListForm;

/// How the lines of a walk through an archive are told.
#[derive(Clone, Copy, PartialEq, Eq)]
pub struct Telling {
    pub form: ListForm,
    /// The lines of what nobody needs to look at are left out.
    pub quiet: bool,
}

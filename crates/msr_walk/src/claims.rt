//! What a walk has to do with other processes. These calls change names of claims and folders alone, of which no clause
//! speaks.
use msr_options::Folders;
use msr_tree::TreeFault;
use std::alloc::{AllocError, Global};
use std::io;

/// Why a day is not claimed.
#[derive(Clone, Copy)]
pub enum ClaimFault {
    /// Its file, or the folder of it, could not be made or looked at, and the system's reason, if it gave one.
    CannotOpen(Option<io::Error>),
    /// Another walk has the day.
    ClaimedByAnother,
    Memory,
}

/// What is found where a day is asked for.
#[derive(Drop)]
pub enum Asked<C, L> {
    /// The day is this walk's.
    Ours(C),
    /// A walk was killed that had the day.
    Left(L),
    /// Another walk was faster, or has just ended.
    Again,
}

/// At any time one walk alone makes, renames or removes the files of a day.
pub trait Claims {
    /// A day that this walk has, until it is released.
    type Claim: Drop;

    /// The claim of a walk that was killed. No other walk takes it meanwhile.
    type Left: Drop;

    /// Whether nobody has the day whose claim has that name, nor has a killed walk left it.
    fn is_free(&self, path: &str) -> bool;

    /// Asks for the day whose claim is to have that name, and makes its folder if it is missing.
    fn ask(&self, alloc: Global, path: &str) -> Result<Asked<Self::Claim, Self::Left>, ClaimFault>;

    /// The number in the names of what that walk left; `None` if its claim has just gone.
    fn left_number(&self, left: &Self::Left) -> Option<u64>;

    /// Takes the claim of a killed walk away, once nothing of it is left.
    fn clear(&self, left: Self::Left) -> Result<(), ClaimFault>;

    /// The number in the names of what is made under that claim, which no other has meanwhile.
    fn number(&self, claim: &Self::Claim) -> u64;

    /// Whether the day is this walk's still.
    fn is_ours(&self, claim: &Self::Claim) -> bool;

    /// Lets the day go.
    fn release(&self, claim: &Self::Claim);

    /// Whether what is made of the days of a folder, with that path from the archive's own, certainly stands outside the
    /// archive, by whatever links, mounts and names: outside its own folder, and outside that of the days, which may be a
    /// link that leads out of it.
    fn stand_apart(
        &self,
        alloc: Global,
        folders: Folders<'_>,
        folder: &str,
    ) -> Result<bool, AllocError>;

    /// Makes a folder, with those that lead to it.
    fn make_folder(&self, folder: &str) -> io::Result<()>;

    /// Stores the names of the folders of records and reports with that path, and of those that lead to them. Those that
    /// lead to the last one too are stored already.
    fn store_names(
        &self,
        alloc: Global,
        folders: Folders<'_>,
        folder: &str,
        last: Option<&str>,
    ) -> Result<(), TreeFault>;
}

//! What stands under a name.

/// What stands under a name, links not followed.
#[derive(Clone, Copy, PartialEq, Eq)]
pub enum Kind {
    Regular,
    Folder,
    Link,
    /// A pipe, a socket or a device.
    Other,
}

/// A moment as the file system tells it.
#[derive(Clone, Copy, PartialEq, Eq)]
pub struct Time {
    pub seconds: i64,
    pub nanoseconds: i64,
}

/// Who owns a file, and who may do what with it.
#[derive(Clone, Copy, PartialEq, Eq)]
pub struct Rights {
    pub owner: u32,
    pub group: u32,
    pub mode: u32,
}

/// What the file system tells of what stands under a name.
#[derive(Clone, Copy, PartialEq, Eq)]
pub struct Facts {
    pub kind: Kind,
    /// The device and the number there, which no other file has.
    pub device: u64,
    pub number: u64,
    pub bytes: u64,
    pub changed: Time,
    /// When bytes, names or rights were last changed.
    pub touched: Time,
    pub rights: Rights,
}

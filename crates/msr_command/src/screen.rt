//! Which walks a person sees.

/// Whether it is the folder of a channel. Scripts have such folders walked, many at once, and tell how far all are.
fn is_of_channel(folder: &str) -> bool {
    3 < folder.split('/').count()
}

/// The folder that is walked, for a person to see how far that is, unless a folder is a channel's.
pub(crate) fn watched_below<'a>(below: &[&str], root: &'a str) -> Option<&'a str> {
    for folder in below {
        if is_of_channel(folder) {
            return None;
        }
    }
    Some(root)
}

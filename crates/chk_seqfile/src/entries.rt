/// Why no entry can be read at a place.
#[derive(Clone, Copy, Debug, PartialEq, Eq)]
pub enum Why {
    /// There are fewer bytes than the entry has.
    Torn,
    /// A length is too large, or does not fit the others.
    BadLength,
    /// Behind four bytes 255 stand 16 other bytes than the file's marker.
    BadMarker,
}

/// One of the two lists of a rotation.
#[derive(Clone, Copy)]
pub enum Side {
    /// The list of keys that were listed and have not been visited since.
    New,
    /// The list of keys that have been visited.
    Old,
}

/// What became of an operation that was given to an object.
#[derive(Clone, Copy, Debug, PartialEq, Eq)]
pub enum Applied {
    /// It was applied, and its site's serial was set.
    Applied,
    /// Its site has this serial or a greater one (RTLO4a), it is for another kind of object, or it has no serial.
    /// Nothing changed.
    Skipped,
    /// A counter's sum would have passed its range. Nothing changed, not even the site's serial. (This project's own.)
    Range,
}

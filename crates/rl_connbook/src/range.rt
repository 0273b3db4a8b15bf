/// The numbers that a book of connections gives, each once: `after + 1`, `after + 2` and so on up to `last`.
/// (This project's own: books with ranges apart never give one number twice.)
#[derive(Clone, Copy, Debug, PartialEq, Eq)]
pub struct NumberRange {
    /// The number before the first.
    pub after: u32,
    /// The last number. There is none where it is not above `after`.
    pub last: u32,
}

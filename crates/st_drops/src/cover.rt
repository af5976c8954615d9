/// How far, from a key on, the ranges of tables cover keys, or don't.
#[derive(Clone, Copy)]
pub enum Cover<'a> {
    /// A range has the key and those behind it through this one, which is the range's last.
    Through(&'a [u8]),
    /// No range has the key or one behind it before this one, which is the first of a range.
    NoneBefore(&'a [u8]),
    /// No range has the key or one behind it.
    Never,
}

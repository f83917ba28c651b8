//! The tokens of a record.

/// A value, or the opening or the close of one, with the label of the member that it is.
#[derive(Clone, Copy, Debug)]
pub struct Token<'a> {
    pub label: Label<'a>,
    pub value: Piece<'a>,
}

/// What a value is labelled by: nothing outside of objects, in form 0 a name, in the others the number of one.
#[derive(Clone, Copy, Debug)]
pub enum Label<'a> {
    Bare,
    Name(&'a str),
    Number(u32),
}

/// A scalar, an array or an object opened, or the close of the innermost one.
#[derive(Clone, Copy, Debug)]
pub enum Piece<'a> {
    Null,
    Bool(bool),
    Int(i64),
    Text(&'a str),
    Array,
    Object,
    Close,
}

// What a character does in a line.

#[derive(Clone, Copy, PartialEq, Eq, Debug)]
pub enum Sign {
    LineEnd,
    Comment,
    Space,
    Dollar,
    Colon,
    Other,
}

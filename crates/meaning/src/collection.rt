// What a vector last did or does next: an element to delete, or an element to simplify.
#[derive(Clone, Copy, Debug, PartialEq, Eq)]
pub enum Shrink {
    DeleteElement(usize),
    ShrinkElement(usize),
}

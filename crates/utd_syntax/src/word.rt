// Names and the other parts of a tree that keep what was written.
use point_core::Place;

/// The bytes of a name, of an integer's digits, or of a text between its quotes, with one quote for each two.
#[derive(Drop)]
pub struct Bytes {
    pub list: Vec<u8>,
}

/// A name, and where it stands.
#[derive(Drop)]
pub struct Word {
    pub place: Place,
    pub bytes: Bytes,
}

/// Names in the order of the text.
#[derive(Drop)]
pub struct Words {
    pub list: Vec<Word>,
}

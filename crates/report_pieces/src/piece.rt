ghost use Rattle.std.specs.Prelude.{◌≡◌};

use std::marker::Model;

/// A piece of a text: lines, each with its newline. A contract sees it as its bytes.
#[derive(Drop)]
pub struct Piece {
    bytes: Vec<u8>,
}

impl Model for Piece {
    ghost use Rattle.ut_text.specs.Bytes.{Bytes};

    ghost Value = { Bytes };

    ghost view = { λ p. p.bytes.items };
}

impl Piece {
    /// A piece of these bytes.
    pub fn new(bytes: Vec<u8>) -> Piece
        ensures { result ≡ bytes.items }
    {
        Piece { bytes }
    }

    /// Its bytes.
    pub fn bytes(&self) -> &[u8]
        ensures { result.now ≡ self.now }
    {
        self.bytes.as_slice()
    }
}

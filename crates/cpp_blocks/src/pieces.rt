ghost use Rattle.std.specs.Prelude.{◌≡◌, IfOk};
ghost use Rattle.std.specs.Cmp.{partial_equiv_from_equiv};
ghost use Rattle.cpp_blocks.specs.PieceIdentity.{piece_eq, piece_equiv, piece_input, piece_alike};

use std::hash::{Hash, Hasher};
use ut_logic::Text;

/// An opaque piece of a condition: its tokens joined by one space, and the number of earlier `#define`
/// and `#undef` lines of the file that touch a name in it. Equal pieces have one free truth.
#[derive(Drop)]
pub struct PieceOf {
    pub text: Text,
    pub turn: u32,
}

impl PartialEq for PieceOf {
    ghost eq = { piece_eq };

    ghost laws = { partial_equiv_from_equiv piece_equiv };

    fn eq(&self, other: &PieceOf) -> bool {
        self.text == other.text && self.turn == other.turn
    }
}

impl Eq for PieceOf {
    ghost laws = { piece_equiv };
}

impl Hash for PieceOf {
    ghost hash_input = { piece_input };

    ghost respects_eq = { piece_alike };

    fn hash<H: Hasher>(&self, state: &mut H) {
        self.text.hash(state);
        self.turn.hash(state);
    }
}

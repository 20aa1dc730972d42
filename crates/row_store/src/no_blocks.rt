// Words in which no block has room.

ghost use Rattle.std.specs.Prelude.{⊤, ◌∷◌, []};
ghost use Rattle.row_store.specs.Vectors.{known_in, places_in};

use crate::words::RowWords;

/// A single word, too few for a block: the words of a run whose rows lie in no blocks.
#[derive(Clone, Copy, Debug, Default)]
pub struct NoBlocks {
    word: u64,
}

impl RowWords for NoBlocks {
    ghost Beside = { ⊤ };

    ghost beside = { λ _. tt };

    ghost known = { λ s. known_in 0 (s.word ∷ []) };

    ghost places = { λ s. places_in (s.word ∷ []) };

    fn get_word(&mut self, at: u64) -> u64 {
        let _ = at;
        self.word
    }

    fn put_word(&mut self, at: u64, w: u64) {
        let _ = at;
        self.word = w;
    }
}

// Words in a vector.

ghost use Rattle.std.specs.Prelude.{⊤};
ghost use Rattle.row_store.specs.Vectors.{known_in, places_in};

use crate::words::RowWords;

/// All words of a vector are known, and all may be written.
impl RowWords for Vec<u64> {
    ghost Beside = { ⊤ };

    ghost beside = { λ _. tt };

    ghost known = { λ s. known_in 0 s.items };

    ghost places = { λ s. places_in s.items };

    fn get_word(&mut self, at: u64) -> u64 {
        self[at as usize]
    }

    fn put_word(&mut self, at: u64, w: u64) {
        self[at as usize] = w;
    }
}

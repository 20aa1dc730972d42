// One bit of a word.

ghost use Rattle.std.specs.Prelude.{◌≡◌, ◌<◌, ◌==◌, true, false};
ghost use Rattle.std.specs.Int.{bit_at};
ghost use Rattle.ready_set.specs.Bits.{IsLowestBit, PutsBit};

/// Whether the bit is set.
pub(crate) fn has_bit(word: u64, k: u32) -> bool
    requires { k < 64 }
    ensures { result ≡ (bit_at word k == 1) }
{
    (word >> k) & 1 == 1
}

fn with_bit(word: u64, k: u32) -> u64
    requires { k < 64 }
    ensures { PutsBit word result k true }
{
    word | 1 << k
}

fn without_bit(word: u64, k: u32) -> u64
    requires { k < 64 }
    ensures { PutsBit word result k false }
{
    word & !(1 << k)
}

/// The word with the bit set or cleared.
pub(crate) fn put_bit(word: u64, k: u32, on: bool) -> u64
    requires { k < 64 }
    ensures { PutsBit word result k on }
{
    if on {
        with_bit(word, k)
    } else {
        without_bit(word, k)
    }
}

/// The place of the lowest bit that is set.
pub(crate) fn lowest_bit(word: u64) -> u32
    requires { 0 < word }
    ensures { IsLowestBit word result }
{
    word.trailing_zeros()
}

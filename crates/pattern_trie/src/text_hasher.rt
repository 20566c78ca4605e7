//! How the texts of nodes are hashed.

ghost use Rattle.std.specs.Prelude.{◌≡◌};
ghost use Rattle.pattern_trie.specs.Hashing as hashing;

use std::hash::{FoldHasher, Hasher};

/// A hasher that gathers single bytes to words of eight, and feeds those to the hasher of maps: a slice of
/// bytes is fed byte by byte, and hashing each by itself is most of what a look-up takes.
#[derive(Clone, Copy)]
pub(crate) struct TextHasher {
    whole: FoldHasher,
    /// The bytes that are not fed yet.
    word: u64,
    /// How many these are.
    filled: u8,
}

impl Default for TextHasher {
    ghost is_default = { λ h. h ≡ hashing.initial };

    fn default() -> TextHasher {
        TextHasher {
            whole: FoldHasher::default(),
            word: 0,
            filled: 0,
        }
    }
}

impl TextHasher {
    /// One byte more.
    fn push(&mut self, byte: u8)
        ensures { self.new ≡ hashing.with_byte self.old byte }
    {
        let word = self.word.wrapping_mul(256).wrapping_add(u64::from(byte));
        if self.filled >= 7 {
            self.whole.write_u64(word);
            self.word = 0;
            self.filled = 0;
        } else {
            self.word = word;
            self.filled += 1;
        }
    }
}

impl Hasher for TextHasher {
    ghost write = { hashing.write };

    ghost finish = { hashing.finish };

    fn finish(&self) -> u64 {
        let mut whole = self.whole;
        whole.write_u64(self.word);
        whole.finish()
    }

    fn write(&mut self, bytes: &[u8]) {
        match bytes {
            [byte] => self.push(*byte),
            _ => self.whole.write(bytes),
        }
    }
}

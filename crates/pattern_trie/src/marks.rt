//! Which tokens may go on behind a beginning.

ghost use Rattle.std.specs.Prelude.{◌≡◌, ℕ, List, ◌^◌, ◌<◌, true, bit_or, codes};
ghost use Rattle.pattern_trie.specs.Classes as classes;
ghost use Rattle.pattern_trie.specs.Classes.{is_in};

use std::hash::{FoldHasher, Hasher};
use subj::split_token;

/// How many classes there are for tokens that are no wildcards.
const PLAIN_CLASSES: u64 = 62;

/// The class of the token `*`.
const ONE_CLASS: u32 = 62;

/// The class of the token `>`.
const REST_CLASS: u32 = 63;

/// Some of 64 classes of tokens, of which each wildcard has one of its own.
#[derive(Clone, Copy, Drop)]
pub(crate) struct Marks {
    /// A bit for each class.
    bits: u64,
}

/// The class of a token that is no wildcard.
fn plain_class_of(token: &[u8]) -> u32
    ensures value { result ≡ classes.plain_class_of token.now }
    ensures bound { result < 62 }
{
    let mut hasher = FoldHasher::default();
    hasher.write(token);
    (hasher.finish() % PLAIN_CLASSES) as u32
}

/// The class of a token.
fn class_of_token(token: &[u8]) -> u32
    ensures value { result ≡ classes.class_of_token token.now }
    ensures bound { result < 64 }
{
    if token == b"*".as_slice() {
        ONE_CLASS
    } else if token == b">".as_slice() {
        REST_CLASS
    } else {
        plain_class_of(token)
    }
}

/// The class of the first token of a text.
fn class_of(text: &[u8]) -> u32
    ensures value { result ≡ classes.class_of text.now }
    ensures bound { result < 64 }
{
    let (token, _) = split_token(text);
    class_of_token(token)
}

impl Marks {
    /// All classes.
    pub(crate) fn all() -> Marks
        ensures { (text : List ℕ) → is_in text result ≡ true }
    {
        Marks { bits: u64::MAX }
    }

    /// No class.
    pub(crate) fn none() -> Marks {
        Marks { bits: 0 }
    }

    /// The class of the first token of a text.
    pub(crate) fn of_first_token(text: &[u8]) -> Marks
        ensures { result.bits ≡ 2 ^ classes.class_of text.now }
    {
        Marks {
            bits: 1 << class_of(text),
        }
    }

    /// The classes in either.
    pub(crate) fn or(self, other: Marks) -> Marks
        ensures { result.bits ≡ bit_or self.bits other.bits }
    {
        Marks {
            bits: self.bits | other.bits,
        }
    }

    /// Whether the class of the first token of a text is among them.
    pub(crate) fn has(self, text: &[u8]) -> bool
        ensures { result ≡ is_in text.now self }
    {
        (self.bits >> class_of(text)) & 1 == 1
    }

    /// Whether the class of the token `*` is.
    pub(crate) fn has_one(self) -> bool
        ensures { result ≡ is_in (codes "*") self }
    {
        (self.bits >> ONE_CLASS) & 1 == 1
    }

    /// Whether the class of the token `>` is.
    pub(crate) fn has_rest(self) -> bool
        ensures { result ≡ is_in (codes ">") self }
    {
        (self.bits >> REST_CLASS) & 1 == 1
    }
}

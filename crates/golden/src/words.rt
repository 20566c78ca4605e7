//! The arguments of a call.

/// The arguments of a call, with `|` between them.
#[derive(Clone, Copy)]
pub struct Words<'a> {
    pub text: &'a str,
}

impl<'a> Words<'a> {
    /// The argument at this place, from 0; it is empty where there are fewer.
    pub fn at(&self, place: usize) -> &'a str {
        self.text.split('|').nth(place).unwrap_or("")
    }

    /// The number that the argument at this place is, 0 where it is none.
    pub fn number(&self, place: usize) -> u64 {
        number(self.at(place))
    }
}

/// The number that a word is, 0 where it is none.
pub fn number(word: &str) -> u64 {
    word.parse().unwrap_or(0)
}

/// What stands behind this name in a table.
pub fn named<T: Copy>(table: &[(&'static str, T)], name: &str) -> Option<T> {
    for (other, value) in table {
        if *other == name {
            return Some(*value);
        }
    }
    None
}

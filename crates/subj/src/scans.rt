//! A subject or a pattern judged in one pass over its bytes, without memory.

ghost use Rattle.std.specs.Prelude.{◌≡◌, [], None, Some, MatchResult};
ghost use Rattle.subj.specs.Names.{forbidden_fault};
ghost use Rattle.subj.specs.Scans.{kind_before as kind_in_front, scan_before, scan_of, some_empty, some_wild, some_early};

use crate::faults::NameFault;
use crate::limits::MAX_SUBJECT;
use crate::names::is_forbidden_byte;

/// What a token is, as far as its kind matters.
#[derive(Clone, Copy, PartialEq, Eq)]
pub(crate) enum TokenKind {
    /// It has no bytes.
    Empty,
    /// It is `*`, which stands for one token.
    One,
    /// It is `>`, which stands for one or more.
    Rest,
    /// It is any other.
    Literal,
}

/// What was seen of the end of a text.
#[derive(Clone, Copy)]
pub(crate) struct Scan {
    /// Whether some byte is in no name.
    forbidden: bool,
    /// The first token, as far as it was seen.
    first: TokenKind,
    /// Whether tokens stand behind the first.
    more: bool,
    /// Whether one of those has no bytes.
    empty: bool,
    /// Whether one of those is `*` or `>`.
    wild: bool,
    /// Whether one of those but the last is `>`.
    early: bool,
}

/// What a token is once this byte stands in front of it.
fn kind_before(byte: u8, kind: TokenKind) -> TokenKind
    ensures { result ≡ kind_in_front byte kind }
{
    match (kind, byte) {
        (TokenKind::Empty, b'*') => TokenKind::One,
        (TokenKind::Empty, b'>') => TokenKind::Rest,
        _ => TokenKind::Literal,
    }
}

impl Scan {
    /// What is seen of no bytes.
    fn new() -> Scan
        ensures { result ≡ scan_of [] }
    {
        Scan {
            forbidden: false,
            first: TokenKind::Empty,
            more: false,
            empty: false,
            wild: false,
            early: false,
        }
    }

    /// Whether some token has no bytes.
    pub(crate) fn has_empty_token(self) -> bool
        ensures { result ≡ some_empty self }
    {
        self.empty || self.first == TokenKind::Empty
    }

    /// Whether some token is `*` or `>`.
    pub(crate) fn has_wild_token(self) -> bool
        ensures { result ≡ some_wild self }
    {
        self.wild || matches!(self.first, TokenKind::One | TokenKind::Rest)
    }

    /// Whether some token but the last is `>`.
    pub(crate) fn has_wild_before_last(self) -> bool
        ensures { result ≡ some_early self }
    {
        self.early || (self.more && self.first == TokenKind::Rest)
    }

    /// What is seen once this byte stands in front of the rest.
    fn before(self, byte: u8) -> Scan
        ensures { result ≡ scan_before byte self }
    {
        let forbidden = is_forbidden_byte(byte) || self.forbidden;
        if byte == b'.' {
            return Scan {
                forbidden,
                first: TokenKind::Empty,
                more: true,
                empty: self.has_empty_token(),
                wild: self.has_wild_token(),
                early: self.has_wild_before_last(),
            };
        }
        Scan {
            forbidden,
            first: kind_before(byte, self.first),
            ..self
        }
    }

    /// What is seen of the whole text.
    #[tactic(auto, using(crate::proofs::Scanned::scanned_last, crate::proofs::Scanned::scanned_all))]
    pub(crate) fn of(text: &[u8]) -> Scan
        ensures { result ≡ scan_of text.now }
    {
        let mut scan = Scan::new();
        let mut unseen = text;
        while let Some((byte, front)) = unseen.split_last() {
            scan = scan.before(*byte);
            unseen = front;
        }
        scan
    }

    /// What is seen of the text of a subject or a pattern, or that it is empty, too long, or has a byte
    /// that no name may have.
    #[tactic(auto, using(crate::proofs::Scanned::forbidden_told))]
    pub(crate) fn judge(text: &[u8]) -> Result<Scan, NameFault>
        ensures { MatchResult result
            (λ scan. (forbidden_fault MAX_SUBJECT text.now ≡ None) × (scan ≡ scan_of text.now))
            (λ fault. forbidden_fault MAX_SUBJECT text.now ≡ Some fault) }
    {
        if text.is_empty() {
            return Err(NameFault::Empty);
        }
        if text.len() > MAX_SUBJECT {
            return Err(NameFault::TooLong);
        }
        let scan = Scan::of(text);
        if scan.forbidden {
            return Err(NameFault::BadByte);
        }
        Ok(scan)
    }
}

//! What subscriptions ask for, and what it matches.

ghost use Rattle.std.specs.Option.{option_copied};
ghost use Rattle.std.specs.Prelude.{◌≡◌, ◌≤◌, ◌&&◌, length, Option, None, IfOk, ⊤};
ghost use Rattle.subj.specs.Answers.{IsAnswered};
ghost use Rattle.list_laws.specs.Lists.{is_empty};
ghost use Rattle.subj.specs.Names.{tokens_behind, is_rest_wildcard, pattern_fault};
ghost use Rattle.subj.specs.Matching.{subject_matches, takes_token as takes};

use crate::failures::Failure;
use crate::faults::NameFault;
use crate::limits::MAX_SUBJECT;
use crate::names::{is_one_wildcard, is_rest_wildcard, split_token};
use crate::scans::Scan;
use crate::subjects::LentSubject;
use std::alloc::{AllocError, Global};
use std::marker::Model;

/// What a subscription asks for: tokens separated by `.`, where `*` as a whole token stands for any
/// one token and `>` as the whole last token for one or more.
///
/// Seen as its bytes, of which there are 1 to [`MAX_SUBJECT`]. (NATS documentation, "Subject-Based
/// Messaging"; the length and the bytes are this project's profile.)
pub struct Pattern {
    text: Vec<u8>,
}

/// One call, also for crates above: `docs/PROVING.md`, "What a proof costs".
impl Drop for Pattern {
    fn drop(self) {
        let Pattern { text: _ } = self;
    }
}

impl Model for Pattern {
    ghost use Rattle.std.specs.Prelude.{◌≡◌, ℕ, List, None};
    ghost use Rattle.subj.specs.Names.{pattern_fault};

    ghost Value = { List ℕ };

    ghost view = { λ pattern. pattern.text.items };

    ghost invariant = { λ pattern. pattern_fault pattern.text.items ≡ None };
}

impl Pattern {
    /// Why the bytes are no pattern, or None where they are one. Takes no memory.
    #[tactic(auto, using(crate::proofs::Scanned::empty_told, crate::proofs::Scanned::early_told))]
    pub fn fault(text: &[u8]) -> Option<NameFault>
        ensures { result ≡ pattern_fault text.now }
    {
        let scan = match Scan::judge(text) {
            Ok(scan) => scan,
            Err(fault) => return Some(fault),
        };
        if scan.has_empty_token() {
            return Some(NameFault::EmptyToken);
        }
        if scan.has_wild_before_last() {
            return Some(NameFault::WildNotLast);
        }
        None
    }

    /// The pattern of these bytes. Refused just where [`Pattern::fault`] tells a cause, and by that.
    pub fn read(alloc: Global, text: &[u8]) -> Result<Pattern, Failure<NameFault>>
        ensures { IsAnswered (pattern_fault text.now) (λ pattern. pattern ≡ text.now) ⊤ result }
    {
        if let Some(fault) = Pattern::fault(text) {
            return Err(Failure::Refused(fault));
        }
        let text = Vec::from_slice(alloc, text)?;
        Ok(Pattern { text })
    }

    /// The bytes of the name.
    #[tactic(auto, using(crate::proofs::Fits::pattern_fits))]
    pub fn bytes(&self) -> &[u8]
        ensures same { result.now ≡ self.now }
        ensures valid { pattern_fault self.now ≡ None }
        ensures fits { length result.now ≤ MAX_SUBJECT }
    {
        self.text.as_slice()
    }

    /// A copy of the pattern.
    pub fn try_clone(&self, alloc: Global) -> Result<Pattern, AllocError>
        ensures { IfOk result (λ pattern. pattern ≡ self.now) }
    {
        let text = Vec::from_slice(alloc, &self.text)?;
        Ok(Pattern { text })
    }

    /// Whether the pattern matches the subject. Takes no memory. (NATS documentation, "Wildcards".)
    pub fn matches(&self, subject: &LentSubject<'_>) -> bool
        ensures { result ≡ subject_matches self.now subject.now }
    {
        tokens_match(&self.text, subject.bytes())
    }
}

/// Whether the token of a pattern takes all that is left, with what stands behind it.
#[tactic(auto, using(crate::proofs::Tokens::tokens_are_some))]
fn takes_rest(wanted: &[u8], behind: Option<&[u8]>) -> bool
    ensures { result
        ≡ (is_rest_wildcard wanted.now && is_empty (tokens_behind (option_copied behind.entry))) }
{
    behind.is_none() && is_rest_wildcard(wanted)
}

/// Whether the token of a pattern takes the token of a subject.
fn takes_token(wanted: &[u8], token: &[u8]) -> bool
    ensures { result ≡ takes wanted.now token.now }
{
    is_one_wildcard(wanted) || wanted == token
}

/// Matching token by token, as far as the two have tokens.
#[tactic(auto, using(crate::proofs::Matches::more_pattern, crate::proofs::Matches::more_subject))]
fn tokens_match(pattern: &[u8], subject: &[u8]) -> bool
    ensures { result ≡ subject_matches pattern.now subject.now }
{
    let mut pattern = pattern;
    let mut subject = subject;
    loop {
        let (wanted, pattern_behind) = split_token(pattern);
        let (token, subject_behind) = split_token(subject);
        if takes_rest(wanted, pattern_behind) {
            return true;
        }
        if !takes_token(wanted, token) {
            return false;
        }
        match (pattern_behind, subject_behind) {
            (Some(pattern_rest), Some(subject_rest)) => {
                pattern = pattern_rest;
                subject = subject_rest;
            }
            (None, None) => return true,
            (Some(_), None) | (None, Some(_)) => return false,
        }
    }
}

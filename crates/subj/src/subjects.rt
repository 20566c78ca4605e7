//! What messages are published on.

ghost use Rattle.std.specs.Prelude.{◌≡◌, ◌≤◌, length, None, is_none, is_some, IfOk, IfSome, ⊤};
ghost use Rattle.subj.specs.Answers.{IsAnswered, IsDecided};
ghost use Rattle.subj.specs.Names.{subject_fault};

use crate::failures::Failure;
use crate::faults::NameFault;
use crate::limits::MAX_SUBJECT;
use crate::scans::Scan;
use bytes::Bytes;
use std::alloc::{AllocError, Global};
use std::marker::Model;

/// What a message is published on: tokens separated by `.`, none of them `*` or `>`.
///
/// Seen as its bytes, of which there are 1 to [`MAX_SUBJECT`]. (NATS documentation, "Subject-Based
/// Messaging"; the length and the bytes are this project's profile.)
pub struct Subject {
    text: Bytes,
}

/// One call, also for crates above: `docs/PROVING.md`, "What a proof costs".
impl Drop for Subject {
    fn drop(self) {
        let Subject { text: _ } = self;
    }
}

/// The subject that an answer is awaited on.
pub type Reply = Subject;

impl Model for Subject {
    ghost use Rattle.std.specs.Prelude.{◌≡◌, ℕ, List, None};
    ghost use Rattle.subj.specs.Names.{subject_fault};

    ghost Value = { List ℕ };

    ghost view = { λ subject. subject.text };

    ghost invariant = { λ subject. subject_fault subject.text ≡ None };
}

impl Subject {
    /// Why the bytes are no subject, or None where they are one. Takes no memory.
    #[tactic(auto, using(crate::proofs::Scanned::empty_told, crate::proofs::Scanned::wild_told))]
    pub fn fault(text: &[u8]) -> Option<NameFault>
        ensures { result ≡ subject_fault text.now }
    {
        let scan = match Scan::judge(text) {
            Ok(scan) => scan,
            Err(fault) => return Some(fault),
        };
        if scan.has_empty_token() {
            return Some(NameFault::EmptyToken);
        }
        if scan.has_wild_token() {
            return Some(NameFault::Wild);
        }
        None
    }

    /// The subject of these bytes. Refused just where [`Subject::fault`] tells a cause, and by that.
    pub fn read(alloc: Global, text: &[u8]) -> Result<Subject, Failure<NameFault>>
        ensures { IsAnswered (subject_fault text.now) (λ subject. subject ≡ text.now) ⊤ result }
    {
        if let Some(fault) = Subject::fault(text) {
            return Err(Failure::Refused(fault));
        }
        let text = Bytes::copy_from_slice(alloc, text)?;
        Ok(Subject { text })
    }

    /// The subject of these shared bytes, as of a part of what was read. Refused just where
    /// [`Subject::fault`] tells a cause, and by that. Takes no memory.
    pub fn from_shared(text: Bytes) -> Result<Subject, NameFault>
        ensures { IsDecided (subject_fault text) (λ subject. subject ≡ text) ⊤ result }
    {
        match Subject::fault(text.as_slice()) {
            Some(fault) => Err(fault),
            None => Ok(Subject { text }),
        }
    }

    /// The bytes of the name.
    #[tactic(auto, using(crate::proofs::Fits::subject_fits))]
    pub fn bytes(&self) -> &[u8]
        ensures same { result.now ≡ self.now }
        ensures valid { subject_fault self.now ≡ None }
        ensures fits { length result.now ≤ MAX_SUBJECT }
    {
        self.text.as_slice()
    }

    /// The subject, where it stands.
    pub fn lent(&self) -> LentSubject<'_>
        ensures { result ≡ self.now }
    {
        LentSubject { text: &self.text }
    }

    /// A copy of the subject, which shares its bytes.
    pub fn try_clone(&self) -> Result<Subject, AllocError>
        ensures { IfOk result (λ subject. subject ≡ self.now) }
    {
        let text = self.text.clone()?;
        Ok(Subject { text })
    }
}

/// A subject that stands among other bytes, as in what was read: nothing of it is copied.
///
/// Seen as its bytes, which are those of a [`Subject`].
#[derive(Drop)]
pub struct LentSubject<'a> {
    text: &'a [u8],
}

impl<'a> Model for LentSubject<'a> {
    ghost use Rattle.std.specs.Prelude.{◌≡◌, ℕ, List, None};
    ghost use Rattle.subj.specs.Names.{subject_fault};

    ghost Value = { List ℕ };

    ghost view = { λ subject. subject.text.now };

    ghost invariant = { λ subject. subject_fault subject.text.now ≡ None };
}

impl<'a> LentSubject<'a> {
    /// The subject that these bytes are. None just where [`Subject::fault`] tells a cause. Takes no memory.
    pub fn read(text: &'a [u8]) -> Option<LentSubject<'a>>
        ensures some { IfSome result (λ subject. subject ≡ text.now) }
        ensures none { is_some result ≡ is_none (subject_fault text.now) }
    {
        match Subject::fault(text) {
            Some(_) => None,
            None => Some(LentSubject { text }),
        }
    }

    /// The subject that these bytes are. Required: [`Subject::fault`] tells no cause. Takes no memory.
    pub fn of(text: &'a [u8]) -> LentSubject<'a>
        requires { subject_fault text.now ≡ None }
        ensures { result ≡ text.now }
    {
        LentSubject { text }
    }

    /// The bytes of the name.
    #[tactic(auto, using(crate::proofs::Fits::subject_fits))]
    pub fn bytes(&self) -> &'a [u8]
        ensures same { result.now ≡ self.now }
        ensures valid { subject_fault self.now ≡ None }
        ensures fits { length result.now ≤ MAX_SUBJECT }
    {
        self.text
    }

    /// A subject of its own, with a copy of the bytes.
    pub fn to_subject(&self, alloc: Global) -> Result<Subject, AllocError>
        ensures { IfOk result (λ subject. subject ≡ self.now) }
    {
        let text = Bytes::copy_from_slice(alloc, self.text)?;
        Ok(Subject { text })
    }
}

//! Names of subscriptions.

ghost use Rattle.std.specs.Prelude.{◌≡◌, ◌≤◌, length, None, IfOk, ⊤};
ghost use Rattle.subj.specs.Answers.{IsAnswered};
ghost use Rattle.subj.specs.Names.{sid_fault};

use crate::failures::Failure;
use crate::faults::NameFault;
use crate::limits::MAX_SID;
use crate::names::text_fault;
use std::alloc::{AllocError, Global};
use std::marker::Model;

/// What a client calls one of its subscriptions. (NATS documentation, "Client Protocol".)
///
/// Seen as its bytes, 1 to [`MAX_SID`] of any but NUL, space, tab, CR and LF. (Profile.)
pub struct Sid {
    text: Vec<u8>,
}

/// One call, also for crates above: `docs/PROVING.md`, "What a proof costs".
impl Drop for Sid {
    fn drop(self) {
        let Sid { text: _ } = self;
    }
}

impl Model for Sid {
    ghost use Rattle.std.specs.Prelude.{◌≡◌, ℕ, List, None};
    ghost use Rattle.subj.specs.Names.{sid_fault};

    ghost Value = { List ℕ };

    ghost view = { λ sid. sid.text.items };

    ghost invariant = { λ sid. sid_fault sid.text.items ≡ None };
}

impl Sid {
    /// Why the bytes are no subscription id, or None where they are one. Takes no memory.
    pub fn fault(text: &[u8]) -> Option<NameFault>
        ensures { result ≡ sid_fault text.now }
    {
        text_fault(text, MAX_SID)
    }

    /// The subscription id of these bytes. Refused just where [`Sid::fault`] tells a cause, and by
    /// that.
    pub fn read(alloc: Global, text: &[u8]) -> Result<Sid, Failure<NameFault>>
        ensures { IsAnswered (sid_fault text.now) (λ sid. sid ≡ text.now) ⊤ result }
    {
        if let Some(fault) = Sid::fault(text) {
            return Err(Failure::Refused(fault));
        }
        let text = Vec::from_slice(alloc, text)?;
        Ok(Sid { text })
    }

    /// The bytes of the name.
    #[tactic(auto, using(crate::proofs::Fits::sid_fits))]
    pub fn bytes(&self) -> &[u8]
        ensures same { result.now ≡ self.now }
        ensures valid { sid_fault self.now ≡ None }
        ensures fits { length result.now ≤ MAX_SID }
    {
        self.text.as_slice()
    }

    /// A copy of the subscription id.
    pub fn try_clone(&self, alloc: Global) -> Result<Sid, AllocError>
        ensures { IfOk result (λ sid. sid ≡ self.now) }
    {
        let text = Vec::from_slice(alloc, &self.text)?;
        Ok(Sid { text })
    }
}

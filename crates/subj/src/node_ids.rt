//! Names of servers.

ghost use Rattle.std.specs.Prelude.{◌≡◌, ◌≤◌, length, None, ⊤};
ghost use Rattle.subj.specs.Answers.{IsDecided};
ghost use Rattle.subj.specs.Names.{node_name_fault, is_node_name_byte, has_no_name_byte as some_no_name_byte};

use crate::faults::NameFault;
use crate::limits::MAX_NODE_NAME;
use std::marker::Model;

/// The name of a server of the cluster.
///
/// Seen as its bytes, 1 to [`MAX_NODE_NAME`] ASCII letters, digits, `-` and `_`. (Profile.)
#[derive(Clone, Copy, Debug, PartialEq, Eq)]
pub struct NodeId {
    /// The bytes of the name, and zeros behind them.
    padded: [u8; MAX_NODE_NAME],
    len: usize,
}

impl Model for NodeId {
    ghost use Rattle.std.specs.Prelude.{ℕ, List};

    ghost Value = { List ℕ };

    ghost use Rattle.std.specs.Prelude.{take, length};
    ghost use Rattle.subj.specs.Padding.{IsPaddedName, padded_name, padded_name-take};

    ghost view = { λ name. take name.len name.padded };

    ghost invariant = { λ name. IsPaddedName name.padded name.len };

    ghost inverse = { λ text. record { padded = padded_name text; len = length text } };

    ghost inverse_ok = { λ name is i. record {
      padded = (padded_name-take name.padded name.len is).0 i;
      len = (padded_name-take name.padded name.len is).1 i;
    } };
}

/// Whether a server's name may have the byte.
fn is_name_byte(byte: u8) -> bool
    ensures { result ≡ is_node_name_byte byte }
{
    byte.is_ascii_alphanumeric() || byte == b'-' || byte == b'_'
}

/// Whether there is a byte that no server's name may have.
fn has_no_name_byte(text: &[u8]) -> bool
    ensures { result ≡ some_no_name_byte text.now }
{
    text.iter().any(|byte| !is_name_byte(*byte))
}

impl NodeId {
    /// Why the bytes are no server's name, or None where they are one.
    pub fn fault(text: &[u8]) -> Option<NameFault>
        ensures { result ≡ node_name_fault text.now }
    {
        if text.is_empty() {
            return Some(NameFault::Empty);
        }
        if text.len() > MAX_NODE_NAME {
            return Some(NameFault::TooLong);
        }
        if has_no_name_byte(text) {
            return Some(NameFault::BadByte);
        }
        None
    }

    /// The server's name of these bytes. Refused just where [`NodeId::fault`] tells a cause, and by
    /// that. Takes no memory.
    pub fn read(text: &[u8]) -> Result<NodeId, NameFault>
        ensures { IsDecided (node_name_fault text.now) (λ name. name ≡ text.now) ⊤ result }
    {
        if let Some(fault) = NodeId::fault(text) {
            return Err(fault);
        }
        let mut padded = [0; MAX_NODE_NAME];
        padded[..text.len()].copy_from_slice(text);
        Ok(NodeId {
            padded,
            len: text.len(),
        })
    }

    /// The bytes of the name.
    #[tactic(auto, using(crate::proofs::Fits::node_name_fits))]
    pub fn bytes(&self) -> &[u8]
        ensures same { result.now ≡ self.now }
        ensures valid { node_name_fault self.now ≡ None }
        ensures fits { length result.now ≤ MAX_NODE_NAME }
    {
        &self.padded[..self.len]
    }

    /// The name as text.
    #[tactic(auto, using(crate::proofs::NameBytes::name_is_text))]
    pub fn text(&self) -> &str
        ensures { result.now ≡ self.now }
    {
        match str::from_utf8(self.bytes()) {
            Ok(text) => text,
            // the bytes of a name are ASCII
            Err(_) => unreachable!(),
        }
    }
}

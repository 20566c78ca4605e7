//! The nodes of all beginnings of a pattern.

ghost use Rattle.std.specs.Prelude.{◌≤◌, length, OnOk, OnErr};
ghost use Rattle.pattern_trie.specs.Nodes.{IsSame, EntersEach, LeavesEach, CanLeaveEach};
ghost use Rattle.pattern_trie.specs.Beginnings.{is_beginning, is_before_dot_of, goes_on, beginning_with_rest};

use crate::marks::Marks;
use crate::nodes::{Nodes, enter, leave};
use std::alloc::{AllocError, Global};

/// Counts one less at each beginning before a dot among the first `end` bytes. Takes no memory.
fn leave_before<V: Drop>(nodes: &mut Nodes<V>, text: &[u8], end: usize)
    requires within { end ≤ length text.now }
    requires held { CanLeaveEach (λ q. is_before_dot_of end q text.now) nodes.old }
    ensures { LeavesEach (λ q. is_before_dot_of end q text.now) nodes.old nodes.new }
{
    for at in 0..end {
        if text[at] == b'.' {
            leave(nodes, &text[..at]);
        }
    }
}

/// Counts one more at each beginning before a dot.
fn enter_before<V: Drop>(alloc: Global, nodes: &mut Nodes<V>, text: &[u8]) -> Result<(), AllocError>
    ensures ok { OnOk result (EntersEach (λ q. is_before_dot_of (length text.now) q text.now)
        (λ more q. goes_on more (length text.now) q text.now) nodes.old nodes.new) }
    ensures err { OnErr result (IsSame nodes.old nodes.new) }
{
    for at in 0..text.len() {
        if text[at] == b'.' {
            let marks = Marks::of_first_token(&text[at + 1..]);
            if enter(alloc, nodes, &text[..at], marks).is_err() {
                leave_before(nodes, text, at);
                return Err(AllocError);
            }
        }
    }
    Ok(())
}

/// Counts one more at each beginning of the text.
pub(crate) fn enter_all<V: Drop>(
    alloc: Global,
    nodes: &mut Nodes<V>,
    text: &[u8],
) -> Result<(), AllocError>
    ensures ok { OnOk result (EntersEach (λ q. is_beginning q text.now)
        (λ more q. is_beginning (beginning_with_rest more q) text.now) nodes.old nodes.new) }
    ensures err { OnErr result (IsSame nodes.old nodes.new) }
{
    enter_before(alloc, nodes, text)?;
    if enter(alloc, nodes, text, Marks::none()).is_err() {
        leave_before(nodes, text, text.len());
        return Err(AllocError);
    }
    Ok(())
}

/// Counts one less at each beginning of the text. Takes no memory.
pub(crate) fn leave_all<V: Drop>(nodes: &mut Nodes<V>, text: &[u8])
    requires held { CanLeaveEach (λ q. is_beginning q text.now) nodes.old }
    ensures { LeavesEach (λ q. is_beginning q text.now) nodes.old nodes.new }
{
    leave_before(nodes, text, text.len());
    leave(nodes, text);
}

//! The walk down the nodes that a subject reaches.

ghost use Rattle.std.specs.Prelude.{◌≡◌, false, ◌++◌, List, OnOk, IfSome, IfNone};
ghost use Rattle.std.specs.Option.{option_copied};
ghost use Rattle.list_laws.specs.Lists.{is_empty};
ghost use Rattle.subj.specs.Names.{tokens_behind};
ghost use Rattle.pattern_trie.specs.Nodes.{below_at, values_at, has_mark, AreKnown};
ghost use Rattle.pattern_trie.specs.Held.{Held, Holds};
ghost use Rattle.pattern_trie.specs.Matchers.{text_with_token, values_under, matchers};

use crate::marks::Marks;
use crate::nodes::Nodes;
use std::alloc::AllocError;
use subj::split_token;

/// Puts one token more behind a text.
fn push_token(path: &mut Vec<u8>, token: &[u8]) -> Result<(), AllocError>
    ensures { OnOk result (path.new.items ≡ text_with_token path.old.items token.now) }
{
    if !path.is_empty() {
        path.push(b'.')?;
    }
    path.extend_from_slice(token)
}

/// Adds what is held under a pattern.
pub(crate) fn add_values<V: Copy>(
    nodes: &Nodes<V>,
    path: &[u8],
    found: &mut Vec<V>,
) -> Result<(), AllocError>
    ensures { OnOk result (found.new.items ≡ found.old.items ++ values_at nodes.now path.now) }
{
    match nodes.get(path) {
        Some(node) => found.extend_from_slice(&node.values),
        None => Ok(()),
    }
}

/// The tokens that there may be nodes for right behind the path, or None where nothing is held under
/// patterns that begin with it.
fn marks_behind<V: Copy>(nodes: &Nodes<V>, path: &[u8]) -> Option<Marks>
    ensures none { IfNone result ((is_empty path.now ≡ false) × (below_at nodes.now path.now ≡ 0)) }
    ensures some { IfSome result (λ marks. AreKnown marks nodes.now path.now) }
{
    if path.is_empty() {
        return Some(Marks::all());
    }
    match nodes.get(path) {
        Some(node) => Some(node.marks),
        None => None,
    }
}

/// Adds what is held under the patterns that go on behind the path with this token, and then as the
/// tokens behind that want. Nothing is looked up where the token is not marked there.
#[cycle(gather)]
fn gather_token<V: Copy>(
    nodes: &Nodes<V>,
    path: &mut Vec<u8>,
    is_marked: bool,
    token: &[u8],
    behind: Option<&[u8]>,
    found: &mut Vec<V>,
) -> Result<(), AllocError>
    requires known { is_marked ≡ false
        → (is_empty path.old.items ≡ false)
        × (has_mark token.now nodes.now path.old.items ≡ false) }
    ensures path { OnOk result (path.new.items ≡ path.old.items) }
    ensures found { (held : List (Held V))
        → Holds held nodes.now
        → OnOk result (found.new.items
        ≡ found.old.items
        ++ values_under held (text_with_token path.old.items token.now)
        (matchers (tokens_behind (option_copied behind.entry)))) }
{
    if !is_marked {
        return Ok(());
    }
    let len = path.len();
    push_token(path, token)?;
    gather(nodes, path, behind, found)?;
    path.truncate(len);
    Ok(())
}

/// Adds what is held under the patterns that begin with the path and go on as the tokens behind it
/// want.
#[cycle(gather)]
pub(crate) fn gather<V: Copy>(
    nodes: &Nodes<V>,
    path: &mut Vec<u8>,
    behind: Option<&[u8]>,
    found: &mut Vec<V>,
) -> Result<(), AllocError>
    ensures path { OnOk result (path.new.items ≡ path.old.items) }
    ensures found { (held : List (Held V))
        → Holds held nodes.now
        → OnOk result (found.new.items
        ≡ found.old.items
        ++ values_under held path.old.items
        (matchers (tokens_behind (option_copied behind.entry)))) }
{
    let Some(text) = behind else {
        return add_values(nodes, path, found);
    };
    let Some(marks) = marks_behind(nodes, path) else {
        return Ok(());
    };
    let (token, behind) = split_token(text);
    gather_token(nodes, path, marks.has_rest(), b">", None, found)?;
    gather_token(nodes, path, marks.has(token), token, behind, found)?;
    gather_token(nodes, path, marks.has_one(), b"*", behind, found)
}

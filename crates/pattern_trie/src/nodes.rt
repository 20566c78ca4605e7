//! The nodes of a trie, each by the bytes of the beginning that it stands for.

ghost use Rattle.std.specs.Prelude.{◌≡◌, ◌+◌, ◌-◌, ◌<◌, ◌∷◌, [], ◌++◌, length, OnOk, OnErr, position, remove};
ghost use Rattle.std.specs.List.{list_any};
ghost use Rattle.pattern_trie.specs.Classes.{is_in};
ghost use Rattle.pattern_trie.specs.Nodes.{below_at, values_at, Enters, Leaves, IsSame, Values, without_value};

use crate::marks::Marks;
use crate::node::Node;
use crate::text_hasher::TextHasher;
use std::alloc::{AllocError, Global};
use std::collections::HashMap;
use std::hash::BuildHasherDefault;

pub(crate) type Nodes<V> = HashMap<Vec<u8>, Node<V>, BuildHasherDefault<TextHasher>>;

/// Counts one more value below, at a pattern that goes on with these tokens.
pub(crate) fn enter<V: Drop>(
    alloc: Global,
    nodes: &mut Nodes<V>,
    text: &[u8],
    marks: Marks,
) -> Result<(), AllocError>
    ensures ok { OnOk result (Enters text.now (λ more. is_in more marks) nodes.old nodes.new) }
    ensures err { OnErr result (IsSame nodes.old nodes.new) }
{
    if let Some(node) = nodes.get_mut(text) {
        node.below = node.below.checked_add(1).ok_or(AllocError)?;
        node.marks = node.marks.or(marks);
        return Ok(());
    }
    let key = Vec::from_slice(alloc, text)?;
    let node = Node {
        below: 1,
        values: Vec::new(alloc),
        marks,
    };
    nodes.insert(key, node)?;
    Ok(())
}

/// How many values are held at patterns that begin so.
fn below<V: Drop>(nodes: &Nodes<V>, text: &[u8]) -> usize
    ensures { result ≡ below_at nodes.now text.now }
{
    match nodes.get(text) {
        Some(node) => node.below,
        None => 0,
    }
}

/// Counts one less below. Takes no memory.
pub(crate) fn leave<V: Drop>(nodes: &mut Nodes<V>, text: &[u8])
    requires held { 0 < below_at nodes.old text.now }
    requires last_is_empty { below_at nodes.old text.now ≡ 1
        → length (values_at nodes.old text.now) ≡ 0 }
    ensures { Leaves text.now nodes.old nodes.new }
{
    if below(nodes, text) == 1 {
        nodes.remove(text);
        return;
    }
    if let Some(node) = nodes.get_mut(text) {
        node.below -= 1;
    }
}

/// Puts one more value behind those at the text.
pub(crate) fn push_value<V: Drop>(
    nodes: &mut Nodes<V>,
    text: &[u8],
    value: V,
) -> Result<(), AllocError>
    requires held { 0 < below_at nodes.old text.now }
    ensures ok { OnOk result
        (Values text.now (values_at nodes.old text.now ++ value ∷ []) nodes.old nodes.new) }
    ensures err { OnErr result (IsSame nodes.old nodes.new) }
{
    if let Some(node) = nodes.get_mut(text) {
        if node.values.push(value).is_err() {
            return Err(AllocError);
        }
    }
    Ok(())
}

/// Where the first such value of a list stands.
fn place_of<V: PartialEq>(values: &[V], value: &V) -> Option<usize>
    ensures { result ≡ position (V.eq value.now) values.now }
{
    values.iter().position(|held| value == held)
}

/// Takes the first such value out of a list, where there is one.
fn remove_first<V: PartialEq + Drop>(values: &mut Vec<V>, value: &V) -> bool
    ensures some { result ≡ list_any (V.eq value.now) values.old.items }
    ensures left { values.new.items ≡ without_value V.eq value.now values.old.items }
{
    match place_of(values, value) {
        Some(place) => {
            values.remove(place);
            true
        }
        None => false,
    }
}

/// Takes out the first such value at the text, where there is one. Takes no memory.
pub(crate) fn take_value<V: PartialEq + Drop>(nodes: &mut Nodes<V>, text: &[u8], value: &V) -> bool
    ensures some { result ≡ list_any (V.eq value.now) (values_at nodes.old text.now) }
    ensures left { Values text.now (without_value V.eq value.now (values_at nodes.old text.now))
        nodes.old nodes.new }
{
    match nodes.get_mut(text) {
        Some(node) => remove_first(&mut node.values, value),
        None => false,
    }
}

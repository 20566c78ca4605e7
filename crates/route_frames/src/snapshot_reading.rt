//! Reading the text of a snapshot: its lines are judged as they stand there, and then their keys are copied.

ghost use Rattle.std.specs.Prelude.{◌≡◌, ◌∷◌, [], MatchOption, true, nat_eq, position};
ghost use Rattle.std.specs.Option.{option_copied};
ghost use Rattle.route_frames.specs.TextViews.{weighted_view};
ghost use Rattle.route_frames.specs.Meaning.{Says, RouteMeans, MeansBy};
ghost use Rattle.route_frames.specs.SnapshotTexts.{pieces, plain_key, queue_key, weighted_of, before_cr as before_the_cr, key_line_of, keys_in, snapshot_in};

use crate::faults::RouteFault;
use crate::line_reading::{WEIGHT_DIGITS, key, spelt_number, weighted_text};
use crate::reading::WeightedText;
use route_values::{SnapshotKeys, WeightedKey};
use std::alloc::Global;
use subj::Failure;

fn first_of(text: &[u8], byte: u8) -> Option<usize>
    ensures { result ≡ position (λ b. nat_eq b byte) text.now }
{
    text.iter().position(|b| *b == byte)
}

/// What stands before the first such byte of a text, and behind it.
fn split_at_byte(text: &[u8], byte: u8) -> Option<(&[u8], &[u8])>
    ensures { MatchOption result (pieces byte text.now ≡ text.now ∷ [])
        (λ split. pieces byte text.now ≡ split.0.now ∷ pieces byte split.1.now) }
{
    let Some(place) = first_of(text, byte) else {
        return None;
    };
    let (piece, _) = text.split_at(place);
    let (_, behind) = text.split_at(place + 1);
    Some((piece, behind))
}

#[tactic(auto, unfolding(crate::specs::SnapshotTexts::plain_key))]
fn plain(pattern: &[u8]) -> Result<WeightedText<'_>, RouteFault>
    ensures { Says weighted_view (plain_key pattern.now) result }
{
    let key = key(pattern, None)?;
    weighted_text(key, 1)
}

#[tactic(auto, unfolding(crate::specs::SnapshotTexts::queue_key))]
fn with_queue<'a>(
    pattern: &'a [u8],
    queue: &'a [u8],
    weight: &[u8],
) -> Result<WeightedText<'a>, RouteFault>
    ensures { Says weighted_view (queue_key pattern.now queue.now weight.now) result }
{
    let weight = spelt_number(weight, WEIGHT_DIGITS)?;
    let key = key(pattern, Some(queue))?;
    weighted_text(key, weight)
}

/// The key of a line without its CR LF.
fn read_weighted(line: &[u8]) -> Result<WeightedText<'_>, RouteFault>
    ensures { Says weighted_view (weighted_of (pieces 32 line.now)) result }
{
    let Some((pattern, behind)) = split_at_byte(line, b' ') else {
        return plain(line);
    };
    let Some((queue, weight)) = split_at_byte(behind, b' ') else {
        return Err(RouteFault::BadArgs);
    };
    match split_at_byte(weight, b' ') {
        None => with_queue(pattern, queue, weight),
        Some(_) => Err(RouteFault::BadArgs),
    }
}

/// What stands before the CR at the end.
fn before_cr(text: &[u8]) -> Option<&[u8]>
    ensures { option_copied result ≡ before_the_cr text.now }
{
    let (line, end) = text.split_at(text.len().saturating_sub(1));
    if end == b"\r".as_slice() {
        Some(line)
    } else {
        None
    }
}

/// The key of a line with its CR.
#[tactic(auto, unfolding(crate::specs::SnapshotTexts::key_line_of))]
fn read_key_line(text: &[u8]) -> Result<WeightedText<'_>, RouteFault>
    ensures { Says weighted_view (key_line_of text.now) result }
{
    let line = before_cr(text).ok_or(RouteFault::BadArgs)?;
    read_weighted(line)
}

/// The keys of all lines of a text.
fn read_keys(alloc: Global, text: &[u8]) -> Result<Vec<WeightedKey>, Failure<RouteFault>>
    ensures { MeansBy (λ keys. keys.items) true (keys_in (pieces 10 text.now)) result }
{
    let mut keys = Vec::new(alloc);
    let mut rest = text;
    while let Some((line, behind)) = split_at_byte(rest, b'\n') {
        let read = read_key_line(line)?;
        let key = read.copy(alloc)?;
        keys.push(key)?;
        rest = behind;
    }
    if !rest.is_empty() {
        return Err(Failure::Refused(RouteFault::BadArgs));
    }
    Ok(keys)
}

/// The keys of the text of a snapshot.
#[tactic(auto, unfolding(crate::specs::SnapshotTexts::snapshot_in))]
pub(crate) fn read_snapshot_keys(
    alloc: Global,
    text: &[u8],
) -> Result<SnapshotKeys, Failure<RouteFault>>
    ensures { RouteMeans true (snapshot_in text.now) result }
{
    let keys = read_keys(alloc, text)?;
    let keys = SnapshotKeys::from_keys(keys).ok_or(RouteFault::BadArgs)?;
    Ok(keys)
}

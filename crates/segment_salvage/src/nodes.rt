//! The pairs of a map in an image.
ghost use Rattle.std.specs.Prelude.{◌≡◌, ◌+◌, IfOk, IfSome, true};
ghost use Rattle.std.specs.List.{AllByRecursion};
ghost use Rattle.seg_types.specs.Kinds.{is_value, size_of, spelling};
ghost use Rattle.seg_types.specs.Values.{kind_of_scalar, value_of_scalar};
ghost use Rattle.segment_salvage.specs.Standing.{HasPart};
ghost use Rattle.segment_salvage.specs.Pairs.{IsPairOfImage};
ghost use Rattle.segment_salvage.specs.Work.{ReadsValues, ReadsBytes};

use crate::allowance::Allowance;
use crate::bytes::{link, part, word};
use raw_region::bytes_are_octets;
use seg_types::theorems::values_spell_one;
use seg_types::{ScalarKind, ScalarValue};
use std::alloc::{AllocError, Global};

/// The low bits of the tag of a node, without its colour.
const NODE: u64 = 13;

/// The colour in a tag.
const RED: u64 = 2;

/// The length of the links of a node.
const LINKS: u64 = 16;

/// A key and its value.
#[derive(Clone, Copy)]
pub(crate) struct Pair {
    /// The key.
    pub key: ScalarValue,
    /// The value.
    pub value: ScalarValue,
}

/// A node: its pair, and the nodes that its links lead to.
#[derive(Clone, Copy)]
struct Node {
    pair: Pair,
    left: Option<u64>,
    right: Option<u64>,
}

/// Returns the pairs of the map whose value is at `at`, or `None` if its tree has not as many nodes as it says, one of
/// them is not right, or they have more bytes than may still be read.
pub(crate) fn pairs_at(
    alloc: Global,
    image: &[u8],
    at: u64,
    keys: ScalarKind,
    values: ScalarKind,
    allowance: &mut Allowance,
) -> Result<Option<Vec<Pair>>, AllocError>
    ensures contents { IfOk result (λ found. IfSome found (λ pairs.
        AllByRecursion (IsPairOfImage image.now keys values) pairs.items)) }
    ensures steps_upper { ReadsValues allowance.old allowance.new }
{
    let Some(root) = link(image, at) else {
        return Ok(None);
    };
    let count = word(image, at.saturating_add(8)).unwrap_or(u64::MAX);
    if count > image.len() as u64 / 32 {
        return Ok(None);
    }
    let mut waiting = Vec::new(alloc);
    await_node(&mut waiting, root)?;
    let mut pairs = Vec::new(alloc);
    'nodes: for _ in 0..count {
        let Some(node) = next_node(image, &mut waiting, keys, values, allowance) else {
            return Ok(None);
        };
        await_node(&mut waiting, node.left)?;
        await_node(&mut waiting, node.right)?;
        pairs.push(node.pair)?;
    }
    if waiting.is_empty() {
        Ok(Some(pairs))
    } else {
        Ok(None)
    }
}

/// Notes a node that is still to be read, if a link leads to one.
fn await_node(waiting: &mut Vec<u64>, to: Option<u64>) -> Result<(), AllocError> {
    if let Some(at) = to {
        waiting.push(at)?;
    }
    Ok(())
}

/// Returns the last node that is still to be read, if there is one and it is right.
fn next_node(
    image: &[u8],
    waiting: &mut Vec<u64>,
    keys: ScalarKind,
    values: ScalarKind,
    allowance: &mut Allowance,
) -> Option<Node>
    ensures pair { IfSome result (λ node. IsPairOfImage image.now keys values node.pair) }
    ensures steps { IfSome result (λ node.
        ReadsBytes allowance.old allowance.new (16 + size_of keys + size_of values)) }
    ensures steps_upper { ReadsValues allowance.old allowance.new }
{
    let at = waiting.pop()?;
    allowance.take(LINKS + keys.size() + values.size())?;
    node_at(image, at, keys, values)
}

/// Returns the node at `at`, if it is right.
fn node_at(image: &[u8], at: u64, keys: ScalarKind, values: ScalarKind) -> Option<Node>
    ensures { IfSome result (λ node. IsPairOfImage image.now keys values node.pair) }
{
    if !is_node(image, at, LINKS + keys.size() + values.size()) {
        return None;
    }
    let left = link(image, at)?;
    let right = link(image, at.checked_add(8)?)?;
    let key = scalar_at(image, at.checked_add(LINKS)?, keys)?;
    let value = scalar_at(image, at.checked_add(LINKS + keys.size())?, values)?;
    let pair = Pair { key, value };
    Some(Node { pair, left, right })
}

/// Returns the scalar of a kind at `at`, if there is one.
fn scalar_at(image: &[u8], at: u64, kind: ScalarKind) -> Option<ScalarValue>
    ensures kind { IfSome result (λ value. kind_of_scalar value ≡ kind) }
    ensures value { IfSome result (λ value. is_value kind (value_of_scalar value) ≡ true) }
    ensures bytes { IfSome result (λ value. HasPart image.now at (spelling kind (value_of_scalar value))) }
{
    let bytes = part(image, at, kind.size())?;
    bytes_are_octets(bytes);
    values_spell_one();
    ScalarValue::read(kind, bytes)
}

/// Tells whether the tag before `to` is that of a node with room for `len` bytes.
fn is_node(image: &[u8], to: u64, len: u64) -> bool {
    let Some(tag_at) = to.checked_sub(8) else {
        return false;
    };
    match word(image, tag_at) {
        Some(tag) => {
            (tag % 16 == NODE || tag % 16 == NODE + RED)
                && (tag / 16 * 16).saturating_sub(16) >= len
        }
        None => false,
    }
}

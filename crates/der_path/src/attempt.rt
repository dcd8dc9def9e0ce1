//! A chain of certificates, validated after each anchor that has the name of its first issuer.

ghost use Rattle.std.specs.Prelude.{◌≡◌, false, List};
ghost use Rattle.der_path.specs.declared.link.Link.{Link};
ghost use Rattle.der_path.specs.Finding.{is_decided, refused_after, tried_after, Attempts, BeginsFirst, EachRefuses, IsChain, Judges, Tries};

use crate::chain::Chain;
use crate::finding::{FoundPath, Position, RefusedPath, Search};
use crate::keys::Anchor;
use crate::path::{Inputs, PathError, ValidPath, check_path};
use der_modules::copy_of;
use der_verify::names_match;
use std::alloc::Global;

/// What became of a chain.
#[derive(Drop)]
pub enum Attempt<'a> {
    /// Memory ran out.
    Memory,
    /// The path is accepted after an anchor.
    Found(FoundPath<'a>),
    /// No anchor is left that accepts it, with the error of the first, if there is one.
    Refused(Option<RefusedPath<'a>>),
}

/// Validates a chain after the anchors that have the name of its first issuer, in their order.
pub(crate) fn try_chain<'a>(
    alloc: Global,
    search: Search<'_, 'a>,
    inputs: &Inputs<'_, 'a>,
    number: usize,
    chain: Chain<'a>,
) -> Attempt<'a>
    ensures { (links : List Link) (end : Link) → IsChain links end chain.entry → Attempts search.entry links end inputs.now chain.entry result }
{
    let from = first_anchor(search.start, number);
    match try_anchors(alloc, search.anchors, from, &chain, inputs) {
        Tried::Memory => Attempt::Memory,
        Tried::Valid(anchor, path) => Attempt::Found(FoundPath {
            anchor,
            chain: chain.octets,
            path,
            next: behind(number, anchor),
        }),
        Tried::Refused(anchor, error) => Attempt::Refused(Some(RefusedPath {
            anchor,
            chain: chain.octets,
            error,
        })),
        Tried::Nothing => Attempt::Refused(None),
    }
}

/// Returns the place behind an anchor of the chain with a number.
fn behind(number: usize, anchor: usize) -> Position {
    Position {
        chain: number,
        anchor: anchor.saturating_add(1),
    }
}

/// Returns the index of the first anchor to try for the chain with a number.
fn first_anchor(start: Position, number: usize) -> usize
    ensures { start.chain ≡ 0 → start.anchor ≡ 0 → result ≡ 0 }
{
    if number < start.chain {
        usize::MAX
    } else if number == start.chain {
        start.anchor
    } else {
        0
    }
}

/// What became of a chain after some anchors.
#[derive(Drop)]
pub enum Tried<'a> {
    /// Memory ran out.
    Memory,
    /// The chain is accepted after the anchor at this index.
    Valid(usize, ValidPath<'a>),
    /// No anchor accepts it, with the index of the first that was tried, and its error.
    Refused(usize, PathError),
    /// No anchor has the name.
    Nothing,
}

/// Validates a chain after the anchors from an index on that have the name of its first issuer.
fn try_anchors<'a>(
    alloc: Global,
    anchors: &[Anchor<'a>],
    from: usize,
    chain: &Chain<'a>,
    inputs: &Inputs<'_, 'a>,
) -> Tried<'a>
    ensures tried { Tries anchors.now chain.now.octets.items inputs.now result }
    ensures refused { is_decided result ≡ false → from ≡ 0 → EachRefuses anchors.now chain.now.octets.items chain.now.first inputs.now }
{
    let mut tried = Tried::Nothing;
    let mut at = 0;
    let mut left = anchors;
    'each: while let [anchor, others @ ..] = left {
        let judged = judge(alloc, anchor, chain, inputs, at >= from);
        tried = tried_after(tried, at, judged);
        if is_decided(&tried) {
            return tried;
        }
        at += 1;
        left = others;
    }
    tried
}

/// What became of a chain after an anchor.
#[derive(Drop)]
pub enum Judged<'a> {
    /// Memory ran out.
    Memory,
    /// The chain is accepted.
    Valid(ValidPath<'a>),
    /// The chain is refused.
    Refused(PathError),
    /// The anchor is not due, or has another name.
    Other,
}

/// Validates a chain after an anchor that is due, if it has the name of the first issuer.
fn judge<'a>(
    alloc: Global,
    anchor: &Anchor<'a>,
    chain: &Chain<'a>,
    inputs: &Inputs<'_, 'a>,
    is_due: bool,
) -> Judged<'a>
    ensures { Judges anchor.now chain.now inputs.now is_due result }
{
    if !is_due || !names_match(alloc, &anchor.name, &chain.first.issuer) {
        return Judged::Other;
    }
    match check_path(alloc, anchor, &chain.octets, copy_of(inputs)) {
        Ok(path) => Judged::Valid(path),
        Err(PathError::Memory) => Judged::Memory,
        Err(error) => Judged::Refused(error),
    }
}

/// Returns whether no more anchors are tried.
fn is_decided(tried: &Tried<'_>) -> bool
    ensures { result ≡ is_decided tried.now }
{
    match tried {
        Tried::Memory | Tried::Valid(_, _) => true,
        Tried::Refused(_, _) | Tried::Nothing => false,
    }
}

/// Returns what became of a chain after one more anchor.
fn tried_after<'a>(tried: Tried<'a>, at: usize, judged: Judged<'a>) -> Tried<'a>
    ensures { result ≡ tried_after tried.entry at judged.entry }
{
    match judged {
        Judged::Memory => Tried::Memory,
        Judged::Valid(path) => Tried::Valid(at, path),
        Judged::Refused(error) => refused_after(tried, at, error),
        Judged::Other => tried,
    }
}

/// Returns what became of a chain after one more anchor that refuses it: the first error is kept.
fn refused_after<'a>(tried: Tried<'a>, at: usize, error: PathError) -> Tried<'a>
    ensures { result ≡ refused_after tried.entry at error }
{
    match tried {
        Tried::Nothing => Tried::Refused(at, error),
        before => before,
    }
}

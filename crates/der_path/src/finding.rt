//! A path from a trust anchor to a certificate, found among other certificates.

ghost use Rattle.std.specs.Prelude.{◌≡◌, ◌∷◌, []};
ghost use Rattle.der_path.specs.declared.link.Link.{Link};
ghost use Rattle.der_path.specs.Finding.{earlier, AreLinks, Finds, FindsAmong};

use crate::attempt::{Attempt, try_chain};
use crate::chain::{Chain, chain_of, put_longer};
use crate::keys::Anchor;
use crate::link::{Link, link_of, links_of};
use crate::path::{Inputs, PathError, ValidPath};
use der_tlv::Error;
use std::alloc::Global;

/// What a path is found among, and how far.
#[derive(Clone, Copy)]
pub struct Search<'b, 'a> {
    /// The trust anchors.
    pub anchors: &'b [Anchor<'a>],
    /// Other certificates, in any order. Octets that are no certificate are passed over.
    pub certificates: &'b [&'a [u8]],
    /// The end certificate.
    pub end: &'a [u8],
    /// The greatest number of certificates in a path.
    pub depth: usize,
    /// The greatest number of chains that are looked at.
    pub limit: usize,
    /// Where the search begins: at `FIRST`, or behind a path that was found (`FoundPath::next`).
    pub start: Position,
}

/// A place in the order of a search.
#[derive(Clone, Copy, Debug, PartialEq, Eq)]
pub struct Position {
    /// The number of the chain.
    pub chain: usize,
    /// The index of the anchor.
    pub anchor: usize,
}

/// Where a search begins.
pub const FIRST: Position = Position {
    chain: 0,
    anchor: 0,
};

/// A path that was found.
#[derive(Drop)]
pub struct FoundPath<'a> {
    /// The index of the anchor.
    pub anchor: usize,
    /// The octets of the certificates, from the one that the anchor issued to the end certificate.
    pub chain: Vec<&'a [u8]>,
    /// The answer of `check_path`.
    pub path: ValidPath<'a>,
    /// The place behind this path.
    pub next: Position,
}

/// A chain that `check_path` refuses.
#[derive(Drop)]
pub struct RefusedPath<'a> {
    /// The index of the anchor.
    pub anchor: usize,
    /// The octets of the certificates.
    pub chain: Vec<&'a [u8]>,
    /// The error of `check_path`.
    pub error: PathError,
}

/// Why no path was found.
#[derive(Drop)]
pub enum FindError<'a> {
    /// Memory ran out.
    Memory,
    /// The end certificate cannot be read, with the error of reading it.
    NotRead(Error),
    /// As many chains as the limit allows were looked at.
    Limit,
    /// There is no path behind `start`, with the first chain to an anchor, if there is one.
    NoPath(Option<RefusedPath<'a>>),
}

/// Finds a path from one of the anchors to the end certificate that `check_path` accepts.
///
/// A chain is looked at before those that are longer by certificates before it, and a certificate
/// whose subjectKeyIdentifier is not the authority's keyIdentifier after all others; else the one
/// that was given last comes first. A caller whose signature does not verify goes on behind the
/// path: `start` is its `next`.
///
/// # Errors
/// `FindError::NotRead` if the end certificate cannot be read; `FindError::Limit` if as many
/// chains as the limit were looked at; `FindError::NoPath` if no chain is accepted;
/// `FindError::Memory` if memory runs out.
pub fn find_path<'a>(
    alloc: Global,
    search: Search<'_, 'a>,
    inputs: Inputs<'_, 'a>,
) -> Result<FoundPath<'a>, FindError<'a>>
    ensures { Finds search.entry inputs.entry result }
{
    let end = match link_of(alloc, search.end) {
        Ok(end) => end,
        Err(error) => return Err(FindError::NotRead(error)),
    };
    let Ok(links) = links_of(alloc, search.certificates) else {
        return Err(FindError::Memory);
    };
    let Ok(chain) = chain_of(alloc, &end) else {
        return Err(FindError::Memory);
    };
    find_among(alloc, search, &inputs, &links, chain)
}

/// Looks at each chain that ends with the end certificate, and grows from it.
fn find_among<'a>(
    alloc: Global,
    search: Search<'_, 'a>,
    inputs: &Inputs<'_, 'a>,
    links: &[Link<'a>],
    end: Chain<'a>,
) -> Result<FoundPath<'a>, FindError<'a>>
    ensures { (last : Link) → end.entry.octets.items ≡ last.octets ∷ [] → end.entry.first ≡ last → FindsAmong search.entry links.now last inputs.now result }
{
    let mut stack = Vec::new(alloc);
    let Ok(()) = stack.push(end) else {
        return Err(FindError::Memory);
    };
    let mut refused = None;
    let mut number = 0;
    'each: while let Some(chain) = stack.pop() {
        if number == search.limit {
            return Err(FindError::Limit);
        }
        let Ok(()) = put_longer(alloc, links, search.depth, &chain, &mut stack) else {
            return Err(FindError::Memory);
        };
        match try_chain(alloc, search, inputs, number, chain) {
            Attempt::Memory => return Err(FindError::Memory),
            Attempt::Found(found) => return Ok(found),
            Attempt::Refused(one) => refused = earlier(refused, one),
        }
        number += 1;
    }
    Err(FindError::NoPath(refused))
}

/// Returns the first of two, if there is one, or else the second.
fn earlier<'a>(
    first: Option<RefusedPath<'a>>,
    second: Option<RefusedPath<'a>>,
) -> Option<RefusedPath<'a>>
    ensures { result ≡ earlier first.entry second.entry }
{
    match first {
        Some(path) => Some(path),
        None => second,
    }
}

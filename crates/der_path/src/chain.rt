//! Chains of certificates that end with one, and the certificates that may stand before them.

ghost use Rattle.std.specs.Prelude.{◌≡◌, ◌∷◌, ◌<◌, true, false, length, List, [], Contains, IfOk, OnOk, ⊤};
ghost use Rattle.std.specs.List.{list_any};
ghost use Rattle.der_path.specs.declared.link.Link.{Link};
ghost use Rattle.der_path.specs.Finding.{fits, same_octets, stands_in, MayStand, Puts, PutsEach, Stands};

use crate::link::{Link, fits, issued};
use der_modules::copy_of;
use std::alloc::{AllocError, Global};

/// A chain of certificates, from one that others issued to the end certificate.
#[derive(Drop)]
pub struct Chain<'a> {
    /// The octets of the certificates.
    pub octets: Vec<&'a [u8]>,
    /// The first certificate.
    pub first: Link<'a>,
}

/// Returns the chain of a certificate alone.
pub(crate) fn chain_of<'a>(alloc: Global, end: &Link<'a>) -> Result<Chain<'a>, AllocError>
    ensures octets { IfOk result (λ chain. chain.octets.items ≡ end.now.octets ∷ []) }
    ensures first { IfOk result (λ chain. chain.first ≡ end.now) }
{
    let mut octets = Vec::new(alloc);
    octets.push(end.octets)?;
    Ok(Chain {
        octets,
        first: copy_of(end),
    })
}

/// Returns the chain with a certificate before it.
fn extended<'a>(alloc: Global, link: &Link<'a>, chain: &Chain<'a>) -> Result<Chain<'a>, AllocError>
    ensures octets { IfOk result (λ longer. longer.octets.items ≡ link.now.octets ∷ chain.now.octets.items) }
    ensures first { IfOk result (λ longer. longer.first ≡ link.now) }
{
    let mut octets = Vec::new(alloc);
    octets.push(link.octets)?;
    octets.extend_from_slice(&chain.octets)?;
    Ok(Chain {
        octets,
        first: copy_of(link),
    })
}

/// Returns whether a certificate may stand before a chain: it has the name of the issuer of the
/// first certificate, and is none of the chain.
fn may_extend<'a>(alloc: Global, link: &Link<'a>, chain: &Chain<'a>) -> bool
    ensures new { result ≡ true → stands_in link.now chain.now.octets.items ≡ false }
    ensures may { MayStand link.now chain.now → result ≡ true }
{
    issued(alloc, link, &chain.first) && !is_among(link.octets, &chain.octets)
}

/// Returns whether these octets are among others.
fn is_among(octets: &[u8], others: &[&[u8]]) -> bool
    ensures { result ≡ list_any (same_octets octets.now) others.now }
{
    others.iter().any(|other| octets == *other)
}

/// Puts the chains that are longer by one certificate on the stack, unless they are too long: the
/// one with the last certificate is taken first, and those whose key identifiers differ are taken
/// after all others.
pub(crate) fn put_longer<'a>(
    alloc: Global,
    links: &[Link<'a>],
    depth: usize,
    chain: &Chain<'a>,
    stack: &mut Vec<Chain<'a>>,
) -> Result<(), AllocError>
    ensures kept { Puts (Contains links.now) chain.now stack.old.items stack.new.items }
    ensures put { OnOk result (length chain.now.octets.items < depth → PutsEach links.now (λ l. ⊤) chain.now stack.new.items) }
{
    if chain.octets.len() >= depth {
        return Ok(());
    }
    put_those(alloc, links, chain, false, stack)?;
    put_those(alloc, links, chain, true, stack)
}

/// Puts the chains whose key identifiers fit, or do not, on the stack.
fn put_those<'a>(
    alloc: Global,
    links: &[Link<'a>],
    chain: &Chain<'a>,
    fitting: bool,
    stack: &mut Vec<Chain<'a>>,
) -> Result<(), AllocError>
    ensures kept { Puts (Contains links.now) chain.now stack.old.items stack.new.items }
    ensures put { OnOk result (PutsEach links.now (λ l. fits l.subject_key chain.now.first.authority_key ≡ fitting) chain.now stack.new.items) }
{
    let mut left = links;
    'each: while let [link, others @ ..] = left {
        put_one(alloc, link, chain, fitting, stack)?;
        left = others;
    }
    Ok(())
}

/// Puts the chain with this certificate before it on the stack, if it may stand there, and its key
/// identifiers fit, or do not.
fn put_one<'a>(
    alloc: Global,
    link: &Link<'a>,
    chain: &Chain<'a>,
    fitting: bool,
    stack: &mut Vec<Chain<'a>>,
) -> Result<(), AllocError>
    ensures kept { Puts (λ l. l ≡ link.now) chain.now stack.old.items stack.new.items }
    ensures put { OnOk result (fits link.now.subject_key chain.now.first.authority_key ≡ fitting → MayStand link.now chain.now → Stands stack.new.items link.now chain.now) }
{
    if fits(link, &chain.first) != fitting || !may_extend(alloc, link, chain) {
        return Ok(());
    }
    let longer = extended(alloc, link, chain)?;
    stack.push(longer)?;
    Ok(())
}

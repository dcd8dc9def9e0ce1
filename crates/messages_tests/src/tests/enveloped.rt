//! Messages that OpenSSL wrote, read, compared, copied and written back, and octets that are refused.
//!
//! A file of a topic has tables of rows, which the functions of `tables` go over.
//! The keys are of Ed25519 and on P-256, and one is of RSA; a comment at the octets says the command.

mod authenticated;
mod fields;
mod memory;
mod recipients;
mod stamps;

use crate::tests::tables::{
    all_cuts_are_refused, are_in_order, are_refused, are_written_back, changes_are_refused,
};
use std::test::Fail;

#[test]
fn messages_are_written_back(rt: HostRuntime) -> Result<(), Fail> {
    let alloc = rt.alloc();
    are_written_back(&rt, alloc, &recipients::WRITTEN)?;
    are_written_back(&rt, alloc, &authenticated::WRITTEN)?;
    are_written_back(&rt, alloc, &stamps::WRITTEN)
}

#[test]
fn each_cut_of_a_message_is_refused(rt: HostRuntime) -> Result<(), Fail> {
    let alloc = rt.alloc();
    all_cuts_are_refused(&rt, alloc, &recipients::WRITTEN)?;
    all_cuts_are_refused(&rt, alloc, &authenticated::WRITTEN)?;
    all_cuts_are_refused(&rt, alloc, &stamps::WRITTEN)
}

#[test]
fn other_octets_are_refused(rt: HostRuntime) -> Result<(), Fail> {
    let alloc = rt.alloc();
    are_refused(&rt, alloc, &recipients::REFUSED)?;
    are_refused(&rt, alloc, &authenticated::REFUSED)?;
    are_refused(&rt, alloc, &stamps::REFUSED)
}

#[test]
fn a_changed_octet_of_a_message_is_refused(rt: HostRuntime) -> Result<(), Fail> {
    let alloc = rt.alloc();
    changes_are_refused(&rt, alloc, &recipients::CHANGED)?;
    changes_are_refused(&rt, alloc, &authenticated::CHANGED)?;
    changes_are_refused(&rt, alloc, &stamps::CHANGED)
}

#[test]
fn messages_are_in_the_order_of_their_encodings(rt: HostRuntime) -> Result<(), Fail> {
    let alloc = rt.alloc();
    are_in_order(&rt, alloc, &recipients::ORDERED)?;
    are_in_order(&rt, alloc, &authenticated::ORDERED)?;
    are_in_order(&rt, alloc, &stamps::ORDERED)
}

//! Values that OpenSSL wrote, read, compared, copied and written back, and octets that are refused.
//!
//! A file of a topic has tables of rows, which the functions of `tables` go over.
//! The keys are of Ed25519 and on P-256, and one is of RSA; a comment at the octets says the command.

mod algorithms;
mod encrypted_keys;
mod fields;
mod files;

use crate::tests::tables::{
    all_cuts_are_refused, are_in_order, are_refused, are_written_back, changes_are_refused,
};
use std::test::Fail;

#[test]
fn messages_are_written_back(rt: HostRuntime) -> Result<(), Fail> {
    let alloc = rt.alloc();
    are_written_back(&rt, alloc, &encrypted_keys::WRITTEN)?;
    are_written_back(&rt, alloc, &algorithms::WRITTEN)?;
    are_written_back(&rt, alloc, &files::WRITTEN)
}

#[test]
fn each_cut_of_a_message_is_refused(rt: HostRuntime) -> Result<(), Fail> {
    let alloc = rt.alloc();
    all_cuts_are_refused(&rt, alloc, &encrypted_keys::WRITTEN)?;
    all_cuts_are_refused(&rt, alloc, &algorithms::WRITTEN)?;
    all_cuts_are_refused(&rt, alloc, &files::WRITTEN)
}

#[test]
fn other_octets_are_refused(rt: HostRuntime) -> Result<(), Fail> {
    let alloc = rt.alloc();
    are_refused(&rt, alloc, &encrypted_keys::REFUSED)?;
    are_refused(&rt, alloc, &algorithms::REFUSED)?;
    are_refused(&rt, alloc, &files::REFUSED)
}

#[test]
fn a_changed_octet_of_a_message_is_refused(rt: HostRuntime) -> Result<(), Fail> {
    let alloc = rt.alloc();
    changes_are_refused(&rt, alloc, &encrypted_keys::CHANGED)?;
    changes_are_refused(&rt, alloc, &files::CHANGED)
}

#[test]
fn messages_are_in_the_order_of_their_encodings(rt: HostRuntime) -> Result<(), Fail> {
    let alloc = rt.alloc();
    are_in_order(&rt, alloc, &encrypted_keys::ORDERED)?;
    are_in_order(&rt, alloc, &algorithms::ORDERED)?;
    are_in_order(&rt, alloc, &files::ORDERED)
}

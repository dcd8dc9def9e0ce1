//! Fields by their names, of values that are read.

use super::stamps;
use crate::tests::{numbered, same_in};
use der_asn1_types::FromDer;
use der_enveloped::enveloped::RecipientInfo;
use der_time_stamp::time_stamp::TstInfo;
use std::alloc::Global;
use std::process::Abort;
use std::test::Fail;

/// A kind of recipient.
#[derive(Clone, Copy, Debug, PartialEq, Eq)]
enum Kind {
    Transport,
    Agreement,
    Shared,
    Password,
    Other,
}

// Returns the kind of a recipient, and the number of octets of its key, or the number of agreed
// keys.
fn recipient_told(alloc: Global, octets: &[u8]) -> Result<(Kind, usize), u8> {
    match RecipientInfo::from_der(alloc, octets) {
        Ok(RecipientInfo::Ktri(info)) => {
            Ok((Kind::Transport, info.encrypted_key().as_bytes().len()))
        }
        Ok(RecipientInfo::Kari(info)) => {
            let keys = info.value.recipient_encrypted_keys();
            Ok((Kind::Agreement, numbered(keys.items().count(alloc))?))
        }
        Ok(RecipientInfo::Kekri(info)) => {
            Ok((Kind::Shared, info.value.encrypted_key().as_bytes().len()))
        }
        Ok(RecipientInfo::Pwri(info)) => {
            Ok((Kind::Password, info.value.encrypted_key().as_bytes().len()))
        }
        Ok(RecipientInfo::Ori(_)) => Ok((Kind::Other, 0)),
        Err(e) => Err(e.kind().number()),
    }
}

// Returns the year, the accuracy, whether stamps are in order, and whether a name and extensions
// are present.
fn info_told(
    alloc: Global,
    octets: &[u8],
) -> Result<
    (
        u16,
        (Option<u32>, Option<u16>, Option<u16>),
        (bool, bool, bool),
    ),
    u8,
> {
    match TstInfo::from_der(alloc, octets) {
        Ok(info) => {
            let accuracy = match info.accuracy() {
                Some(accuracy) => (accuracy.seconds(), accuracy.millis(), accuracy.micros()),
                None => (None, None, None),
            };
            let year = info.gen_time().seconds().to_date_time().year();
            let rest = (
                info.ordering(),
                info.tsa().is_some(),
                info.extensions().is_some(),
            );
            Ok((year, accuracy, rest))
        }
        Err(e) => Err(e.kind().number()),
    }
}

#[test]
fn recipients_are_of_kinds(rt: HostRuntime) -> Result<(), Fail> {
    let alloc = rt.alloc();
    let rows = [
        (
            "301d0201008002abcd300d06092a864886f70d01010105000405aabbccddee",
            Kind::Transport,
            5,
        ),
        (
            "a137020103a00480020a0b300506032a030530253023a01e04020a0b180f32303236313132373030303030305a300706032a0306050004010c",
            Kind::Agreement,
            1,
        ),
        (
            "a213020104300404020a0b300506032a030504010c",
            Kind::Shared,
            1,
        ),
        ("a30e020100300506032a030504020c0d", Kind::Password, 2),
        ("a40706032a03040500", Kind::Other, 0),
    ];
    for (digits, kind, key) in rows {
        let octets = hex::decode(alloc, digits)?;
        let found = recipient_told(alloc, octets.as_slice());
        same_in(&rt, &digits, found, Ok((kind, key)));
    }
    Ok(())
}

#[test]
fn what_is_stamped_has_fields(rt: HostRuntime) -> Result<(), Fail> {
    let alloc = rt.alloc();
    let octets = hex::decode(alloc, stamps::INFO)?;
    let found = info_told(alloc, octets.as_slice());
    let accuracy = (Some(1), Some(500), Some(100));
    same_in(
        &rt,
        &"a stamp",
        found,
        Ok((2026, accuracy, (true, true, false))),
    );
    Ok(())
}

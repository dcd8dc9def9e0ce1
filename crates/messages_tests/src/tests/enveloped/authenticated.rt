//! Authenticated messages (RFC 5652 section 9), as OpenSSL encodes their fields.

use crate::tests::messages::Message;
use std::cmp::Ordering;

/// With every field: `openssl asn1parse -genconf every.cnf`. The lines of the file name the
/// fields and their values.
const EVERY: &str =
    "3081f1020100a00ba009a30706032a030505003132a230020104300404020a0b300b060960864801650304010504181acd8cbfdc05222a71963c5d8ef45a808d34f45a858ef11a300a06082a864886f70d0209a10b0609608648016503040201301506092a864886f70d010701a00804066261726c6579a24b301806092a864886f70d010903310b06092a864886f70d010701302f06092a864886f70d010904312204203a7c5d0bc1b0b9a5b6e74b26c6b3fe55a0a9a4ea5e1a3a42cb4e4f1a5e7a4d10042060bdc10a3ac1e25fb5efa7174bbd4d0ae31a0a3ea81f4e3d5ab3b4cd0f9a1c55a30c300a06032a030631030101ff";

/// With only the required fields: the command above, with `fewest.cnf`.
const FEWEST: &str =
    "30310201003109a40706032a03040500300a06082a864886f70d0209300b06092a864886f70d01070104080102030405060708";

/// The values that are read and written back. Each proper prefix of them is refused.
pub(super) const WRITTEN: [(Message, &str); 4] = [
    (Message::AuthenticatedData, EVERY),
    (Message::AuthenticatedData, FEWEST),
    // recipients, and attributes that are not authenticated, that are exchanged
    (
        Message::AuthenticatedData,
        "30500201003112a40706032a03040500a40706032a03030500300a06082a864886f70d0209300b06092a864886f70d01070104080102030405060708a314300906032a030431023000300706032a03033100",
    ),
    // two attributes that are authenticated
    (
        Message::AuthenticatedData,
        "30470201003109a40706032a03040500300a06082a864886f70d0209300b06092a864886f70d010701a214300706032a03033100300906032a03043102300004080102030405060708",
    ),
];

/// The octets that are refused, and the number of their first error.
pub(super) const REFUSED: [(Message, &str, u8); 3] = [
    // no recipient
    (
        Message::AuthenticatedData,
        "30280201003100300a06082a864886f70d0209300b06092a864886f70d01070104080102030405060708",
        13,
    ),
    // attributes that are there and are none
    (
        Message::AuthenticatedData,
        "30330201003109a40706032a03040500300a06082a864886f70d0209300b06092a864886f70d01070104080102030405060708a300",
        13,
    ),
    // attributes that are authenticated, and exchanged
    (
        Message::AuthenticatedData,
        "30470201003109a40706032a03040500300a06082a864886f70d0209300b06092a864886f70d010701a214300906032a030431023000300706032a0303310004080102030405060708",
        11,
    ),
];

/// An offset, the octet to put at it, and the number with which the octets are then refused.
pub(super) const CHANGED: [(Message, &str, usize, u8, u8); 11] = [
    // a message that is a SET, a version below 0, and an originator with a primitive tag
    (Message::AuthenticatedData, EVERY, 0, 0x31, 4),
    (Message::AuthenticatedData, EVERY, 5, 0x80, 13),
    (Message::AuthenticatedData, EVERY, 6, 0x80, 4),
    // recipients that are no SET, and an algorithm that is no SEQUENCE
    (Message::AuthenticatedData, EVERY, 19, 0x30, 4),
    (Message::AuthenticatedData, EVERY, 71, 0x31, 4),
    // the digest's algorithm and the content with another tag
    (Message::AuthenticatedData, EVERY, 83, 0xa0, 4),
    (Message::AuthenticatedData, EVERY, 96, 0x31, 4),
    // attributes with the tag of those that are not authenticated, and with that of the digest's algorithm
    (Message::AuthenticatedData, EVERY, 119, 0xa3, 4),
    (Message::AuthenticatedData, EVERY, 119, 0xa1, 4),
    // a code that is a BIT STRING, and the last attributes with the tag of the first
    (Message::AuthenticatedData, EVERY, 196, 0x03, 4),
    (Message::AuthenticatedData, EVERY, 230, 0xa2, 3),
];

/// Two encodings, and the order of their values.
pub(super) const ORDERED: [(Message, &str, &str, Ordering); 1] = [(
    Message::AuthenticatedData,
    FEWEST,
    EVERY,
    Ordering::Less,
)];

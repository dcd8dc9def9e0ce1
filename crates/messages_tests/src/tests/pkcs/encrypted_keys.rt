//! Private keys that are encrypted (RFC 5958 section 3), and the parameters of that (RFC 8018).

use crate::tests::messages::Message;
use std::cmp::Ordering;

/// With AES and HMAC with SHA-256: `openssl pkcs8 -topk8 -in ca.key -v2 aes-256-cbc -passout
/// pass:barley -outform DER`.
const AES: &str =
    "30819b305706092a864886f70d01050d304a302906092a864886f70d01050c301c0408728cf6526829e25c02020800300c06082a864886f70d02090500301d060960864801650304012a04108a6dd38f70258ba938ca5b254e86e1a40440352f369e230a25666549d10431284b07e754a77cb19b37d3995489334b331aa7b6d66e8f19d96b37a6dd519c9fe7456803622c76dc6e391ffb16aea2dc7af534";

/// With HMAC with SHA-1, which is the default: `openssl pkcs8 -topk8 -in ca.key -v2 aes-128-cbc
/// -v2prf hmacWithSHA1 -passout pass:barley -outform DER`.
const SHA1: &str =
    "30818d304906092a864886f70d01050d303c301b06092a864886f70d01050c300e0408694d2210594a367102020800301d0609608648016503040102041089c8c9520b4f1553602311f56e9bc1690440f32202c0ff957b209efa7183d224047c18738494c420b366917a62d622680d6aea6c46f3e4697456a5e37650a9432e4ded3e11bc79b57a2074d1813deb866cdc";

/// In the form of PKCS #12: `openssl pkcs8 -topk8 -in ca.key -v1 PBE-SHA1-3DES -passout
/// pass:barley -outform DER`.
const TRIPLE: &str =
    "3058301c060a2a864886f70d010c0103300e040860c3ada15df523e90202080004388d245c747b9b1129f757a0a34beb2b6e7552dadd6c95ab79c297bead64ca0894a57f13db6a3de36cc2fa2a0d74f41e5d15ee70c67a28b627";

/// The values that are read and written back. Each proper prefix of them is refused.
pub(super) const WRITTEN: [(Message, &str); 11] = [
    (Message::EncryptedPrivateKeyInfo, AES),
    (Message::EncryptedPrivateKeyInfo, SHA1),
    (Message::EncryptedPrivateKeyInfo, TRIPLE),
    // the parameters of these
    (
        Message::Pbes2Params,
        "304a302906092a864886f70d01050c301c0408728cf6526829e25c02020800300c06082a864886f70d02090500301d060960864801650304012a04108a6dd38f70258ba938ca5b254e86e1a4",
    ),
    (
        Message::Pbes2Params,
        "303c301b06092a864886f70d01050c300e0408694d2210594a367102020800301d0609608648016503040102041089c8c9520b4f1553602311f56e9bc169",
    ),
    (
        Message::Pbkdf2Params,
        "301c0408728cf6526829e25c02020800300c06082a864886f70d02090500",
    ),
    (Message::Pbkdf2Params, "300e0408694d2210594a367102020800"),
    (Message::PbeParameter, "300e040860c3ada15df523e902020800"),
    // the length of a key, a salt of another source, and the default function written out
    (Message::Pbkdf2Params, "3009040101020102020120"),
    (Message::Pbkdf2Params, "300b300506032a0302020200ff"),
    (
        Message::Pbkdf2Params,
        "3014040101020102300c06082a864886f70d02070500",
    ),
];

/// The octets that are refused, and the number of their first error.
pub(super) const REFUSED: [(Message, &str, u8); 6] = [
    // no salt, a salt that is a number, and no iterations
    (Message::Pbkdf2Params, "3000", 2),
    (Message::Pbkdf2Params, "3006020101020101", 4),
    (Message::Pbkdf2Params, "3003040101", 2),
    // iterations below 0, and of more than 32 bits
    (Message::Pbkdf2Params, "30060401010201ff", 13),
    (Message::Pbkdf2Params, "300a04010102050100000000", 7),
    // a function before the length of a key
    (Message::Pbkdf2Params, "300e040101020102300306012a020120", 3),
];

/// An offset, the octet to put at it, and the number with which the octets are then refused.
pub(super) const CHANGED: [(Message, &str, usize, u8, u8); 5] = [
    // a SET, an algorithm that is one, and text that is a BIT STRING
    (Message::EncryptedPrivateKeyInfo, AES, 0, 0x31, 4),
    (Message::EncryptedPrivateKeyInfo, AES, 3, 0x31, 4),
    (Message::EncryptedPrivateKeyInfo, AES, 92, 0x03, 4),
    // text that is longer than the message, and shorter
    (Message::EncryptedPrivateKeyInfo, AES, 93, 0x41, 2),
    (Message::EncryptedPrivateKeyInfo, AES, 93, 0x3f, 3),
];

/// Two encodings, and the order of their values.
pub(super) const ORDERED: [(Message, &str, &str, Ordering); 2] = [
    (
        Message::EncryptedPrivateKeyInfo,
        AES,
        SHA1,
        Ordering::Greater,
    ),
    (
        Message::Pbkdf2Params,
        "3009040101020102020120",
        "300b300506032a0302020200ff",
        Ordering::Less,
    ),
];

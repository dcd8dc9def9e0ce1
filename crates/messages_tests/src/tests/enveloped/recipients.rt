//! Messages for recipients (RFC 5652 section 6): the contents of messages that OpenSSL wrote.

use crate::tests::messages::Message;
use std::cmp::Ordering;

/// A recipient with an RSA key: `openssl cms -encrypt -in text -binary -aes128 -outform DER
/// chest.pem`.
const TRANSPORT: &str =
    "3081f20201003181ae3081ab0201003014300f310d300b06035504030c046d696c6c020106300d06092a864886f70d01010105000481809dc7addc12560e74bc9486b7be860c41e874fd0b4a6926e1e60e3aaf919d145875fc8d16fe6a0daa0b4119861ab00b373b1a5d0b4ffb99f264aa88bb439ff736508697fd40885d23b6e0301d75c26a9b749259e9e838172d9dbe17c1ddcc45e6c5054bf04ac7d067715cd66e01bd9407a4e24ab17d9b7a6669b8d4bf5329a827303c06092a864886f70d010701301d060960864801650304010204100cd5e7efecfe2d47233eb6529a7ffd048010c46fc0182b4387ea35d66b3cd44744ee";

/// A recipient with a P-256 key: `openssl cms -encrypt -in text -binary -aes128 -outform DER
/// -recip rye.pem`.
const AGREEMENT: &str =
    "3081eb0201023181a7a181a4020103a051a14f300906072a8648ce3d020103420004f9defb523414df9d53d11539354308324538a5a0b7832dd1ca63f164ca69d24e8ce4eaf584173c6f123b6444bc049771ed81bf4a3fd17d9aa62fe74db6ff83d8301806092b81051086483f0002300b0609608648016503040105303230303014300f310d300b06035504030c046d696c6c0201030418c33cb0609413fc79127978b9fab1ccae6ae893f432cfa895303c06092a864886f70d010701301d060960864801650304010204106ceafb006daaf1d67219908df18bbfb68010ceaf5b19a274240b72644109b633c707";

/// A recipient with a P-256 key, identified by its key: `openssl cms -encrypt -in text -binary
/// -aes128 -outform DER -keyid -recip oats.pem`.
const AGREEMENT_BY_KEY: &str =
    "3081ed0201023181a9a181a6020103a051a14f300906072a8648ce3d0201034200048c21fb000ef3f8b7ca99a3dccc786cb6502129a0a58bfb22d1cdbe8523b73c4c796c3e56546933640cf9fde419c7b47de831a9c09fa960dc48ec7e889b6c0be6301806092b81051086483f0002300b060960864801650304010530343032a01604140813afd67116762e86f934861382ed3b8604de7b0418e3f5a7f51b7f0b68c5bb18afae667a625f3e490653a25ac7303c06092a864886f70d010701301d060960864801650304010204106c25e0a9aadc61f70b2413934e20f37e8010e66a6710ae07ea0d997f37d3ea857894";

/// A key that both sides have: `openssl cms -encrypt -in text -binary -aes128 -outform DER
/// -secretkey 000102030405060708090a0b0c0d0e0f -secretkeyid 0a0b`.
const SHARED: &str =
    "30750201023132a230020104300404020a0b300b060960864801650304010504181acd8cbfdc05222a71963c5d8ef45a808d34f45a858ef11a303c06092a864886f70d010701301d06096086480165030401020410c59b658ec17ef380d3123551a3426e19801051cdd99db19c926cdf5ec0c684f815ce";

/// A password: `openssl cms -encrypt -in text -binary -aes128 -outform DER -pwri_password barley`.
const PASSWORD: &str =
    "3081b50201033172a370020100a01b06092a864886f70d01050c300e0408aad3a34303750e9602020800302c060b2a864886f70d0109100309301d06096086480165030401020410257b3cdb3b6dc8ae5ad8b97e95d3c0c90420cefe9754d33473dea06479c082da2b1d6d9f957f9ad53e67598d968a54db3e12303c06092a864886f70d010701301d0609608648016503040102041007a076fd74e10d9e5c64a79b4db1a6ad80107018b4477ce40deb0f838a86fe5747d8";

/// Three recipients, of the last three kinds: `openssl cms -encrypt -in text -binary -aes128
/// -outform DER -secretkey 000102030405060708090a0b0c0d0e0f -secretkeyid 0a0b -pwri_password
/// barley -recip rye.pem`.
const THREE: &str =
    "308201900201033182014ba181a4020103a051a14f300906072a8648ce3d0201034200045ea1552568fe77e9763d791d07580774db95df9ed775b3a1e180a12c4a0a3f9687469bd4ef4072cedbc8db9f90b71a33beebdb1bf64c39ee2e9dd3d5aaa9c2af301806092b81051086483f0002300b0609608648016503040105303230303014300f310d300b06035504030c046d696c6c020103041808f9cdcc8aef7fdebd3b12dfecb15bebb4e20e5dde47f7aba230020104300404020a0b300b06096086480165030401050418f5f8546d400f8c58818f4bea6d4f6c261a5ccffcb1e2e13da370020100a01b06092a864886f70d01050c300e0408ce181b28e180538002020800302c060b2a864886f70d0109100309301d06096086480165030401020410977f95812dc08936c288a39458c5d8ce0420edafa5503674f7b8f7821660711aafa6b9dd87873e38fe74f90bf217196247e6303c06092a864886f70d010701301d060960864801650304010204108a3a64ffd68c27ce121093050aa5acea8010261240b4612c99e7d66f70845337601b";

/// The values that are read and written back. Each proper prefix of them is refused.
pub(super) const WRITTEN: [(Message, &str); 12] = [
    (Message::EnvelopedData, TRANSPORT),
    (Message::EnvelopedData, AGREEMENT),
    (Message::EnvelopedData, AGREEMENT_BY_KEY),
    (Message::EnvelopedData, SHARED),
    (Message::EnvelopedData, PASSWORD),
    (Message::EnvelopedData, THREE),
    // an originator with a certificate of another format, a recipient of another kind, and an attribute
    (
        Message::EnvelopedData,
        "3034020103a00ba009a30706032a030505003109a40706032a03040500300c06032a0304300506032a0305a109300706032a03033100",
    ),
    // recipients and attributes that are exchanged
    (
        Message::EnvelopedData,
        "303b0201003112a40706032a03040500a40706032a03030500300c06032a0304300506032a0305a114300906032a030431023000300706032a03033100",
    ),
    // a recipient of another kind; one that a key, a date and an attribute name; and two that agree, one by
    // a certificate with material of the user, and one by a key that is named so
    (Message::RecipientInfo, "a40706032a03040500"),
    (
        Message::RecipientInfo,
        "a22d020104301e04020a0b180f32303236313132373030303030305a300706032a03060500300506032a030504010c",
    ),
    (
        Message::RecipientInfo,
        "a144020103a0163014300f310d300b06035504030c046d696c6c020103a10304010d300506032a0305301b30193014300f310d300b06035504030c046d696c6c02010304010c",
    ),
    (
        Message::RecipientInfo,
        "a137020103a00480020a0b300506032a030530253023a01e04020a0b180f32303236313132373030303030305a300706032a0306050004010c",
    ),
];

/// The octets that are refused, and the number of their first error.
pub(super) const REFUSED: [(Message, &str, u8); 5] = [
    // no recipient
    (
        Message::EnvelopedData,
        "30130201003100300c06032a0304300506032a0305",
        13,
    ),
    // a recipient of no kind, one with no field, and another kind with a value too many
    (Message::RecipientInfo, "a500", 4),
    (Message::RecipientInfo, "a200", 2),
    (Message::RecipientInfo, "a40906032a030405000500", 3),
    // octets whose end is marked, as who writes a message in parts makes them (BER)
    (
        Message::EnvelopedData,
        "3080020103a00ba009a30706032a030505003109a40706032a03040500300c06032a0304300506032a0305a109300706032a030331000000",
        16,
    ),
];

/// An offset, the octet to put at it, and the number with which the octets are then refused.
pub(super) const CHANGED: [(Message, &str, usize, u8, u8); 11] = [
    // recipients that are no SET, one of no kind, and one with a primitive tag
    (Message::EnvelopedData, SHARED, 5, 0x30, 4),
    (Message::EnvelopedData, SHARED, 7, 0xa5, 4),
    (Message::EnvelopedData, SHARED, 7, 0x82, 4),
    // the key's name that is no OCTET STRING, and a key that is a BIT STRING
    (Message::EnvelopedData, SHARED, 14, 0x03, 4),
    (Message::EnvelopedData, SHARED, 31, 0x03, 4),
    // a recipient by a password whose algorithm has another tag
    (Message::EnvelopedData, PASSWORD, 13, 0xa1, 4),
    // an originator with a primitive tag, and of no kind; and material of the user in its place
    (Message::EnvelopedData, AGREEMENT, 15, 0x80, 4),
    (Message::EnvelopedData, AGREEMENT, 17, 0xa2, 4),
    (Message::EnvelopedData, AGREEMENT, 15, 0xa1, 4),
    // a recipient by its certificate where a key agrees
    (Message::EnvelopedData, AGREEMENT, 9, 0x30, 4),
    // encrypted text with a tag of attributes, which are a SET
    (Message::EnvelopedData, TRANSPORT, 227, 0x81, 3),
];

/// Two encodings, and the order of their values.
pub(super) const ORDERED: [(Message, &str, &str, Ordering); 2] = [
    (Message::EnvelopedData, SHARED, THREE, Ordering::Less),
    (
        Message::RecipientInfo,
        "a40706032a03040500",
        "a22d020104301e04020a0b180f32303236313132373030303030305a300706032a03060500300506032a030504010c",
        Ordering::Greater,
    ),
];

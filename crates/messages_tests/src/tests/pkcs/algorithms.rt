//! Parameters of algorithms, and values of signatures (RFC 4055, RFC 3279, PKCS #3).

use crate::tests::messages::Message;
use std::cmp::Ordering;

/// The parameters of a key: `openssl genpkey -algorithm RSA-PSS -pkeyopt rsa_keygen_bits:1024
/// -pkeyopt rsa_pss_keygen_md:sha256 -pkeyopt rsa_pss_keygen_mgf1_md:sha256 -pkeyopt
/// rsa_pss_keygen_saltlen:32`.
const PSS: &str =
    "3034a00f300d06096086480165030402010500a11c301a06092a864886f70d010108300d06096086480165030402010500a203020120";

/// The parameters of a recipient: `openssl cms -encrypt -in text -binary -aes128 -outform DER
/// -recip chest.pem -keyopt rsa_padding_mode:oaep -keyopt rsa_oaep_md:sha256`.
const OAEP: &str =
    "302ba00d300b0609608648016503040201a11a301806092a864886f70d010108300b0609608648016503040201";

/// A signature: `openssl dgst -sha256 -sign barley.key`.
const SIGNATURE: &str =
    "3046022100af692bead630efc77ab3d081127451ef4b9a41aba13a49a4fd1a61da960c7e56022100f4582f324304c6c172fbafe29af9c3bdfcfa03cca6aa80e03febc6f53eb6250f";

/// Parameters of DSA: `openssl dsaparam -outform DER 1024`.
const DSA: &str =
    "3082012602818100a26155f5c5904ca1bbe553c2618b8e5a5de3b9a00cea278e73e8e72cfacc9f5a4d613d256318fe50932932e5717dceac09cb0ea8668ca968fb3349ff5bb88937487a662aa373343bff8e8c84f6325185862785bb82e8519f285839d5d3bf3b4a0124646e6d7c57a6d8d4c2c40255421b0e7ffb1c254d1182e6a71560e31f4e49021d00e1bda5fca83832e24d10e22c43bee3b64f50f94464f4cfe0804e0c67028180412900c87677f2475a5ab2e1e6575888c8213f5cdedba616f3f3e8921afd7366cdef5e32815d5056d7bc4d80051751770a21dc4713b0116ebcaccfd169a47f4264396dcb75f25489d851b5f61cbe306a237f59cedbfc54b2362ee71ba62b43ef7f5778e1990ad2b502a80ef26f75685c6f8d8aa31231133b7966e395f7c2b7f8";

/// Diffie-Hellman parameters, with the values that they were generated from: `openssl genpkey
/// -genparam -algorithm DHX -pkeyopt type:fips186_2 -pkeyopt pbits:512 -pkeyopt qbits:160`.
const DHX: &str =
    "3081b8024100d6368c540ed64e6677ac0203537910da4d2309c3d3f9bc37aa1ccdd81688742bef35d8873bcb8bf9666b797f80a267c9461452b645c78ddd822df776a5dd5aa9024069611004a0911baae8da74bac29a1b81a14af996361de72d905658e022534b9028a468a2cde9333e88a1f5450368d0b47f46ec1ccc0d9d13b1d7f310d1a234830215008e25d5c78fb067bd3bfb243605b44d386b911f5d301a031500e17620cb1eb6bcf2dfeea3c2b7972f18f4102c82020108";

/// Diffie-Hellman parameters in the form of PKCS #3: `openssl genpkey -genparam -algorithm DH
/// -pkeyopt dh_paramgen_prime_len:512 -pkeyopt dh_paramgen_generator:2`.
const DH: &str =
    "3046024100cb9df348953edd50e46fcf6ae0d62963729b04e9792f5b45325418effd1106a351a0d5ee9447d477692785c5468fd5097f7a43cf23656ccaf90ddecd35b6ae67020102";

/// The values that are read and written back. Each proper prefix of them is refused.
pub(super) const WRITTEN: [(Message, &str); 13] = [
    // those of OpenSSL, none, and another trailer
    (Message::RsassaPssParams, PSS),
    (Message::RsassaPssParams, "3000"),
    (Message::RsassaPssParams, "3005a303020102"),
    (Message::RsaesOaepParams, OAEP),
    (Message::RsaesOaepParams, "3000"),
    (Message::EcdsaSigValue, SIGNATURE),
    (Message::DssParms, DSA),
    (Message::DomainParameters, DHX),
    // those of DSA's shape, with a factor, and with what they were made from alone
    (Message::DomainParameters, "3009020117020102020107"),
    (Message::DomainParameters, "300c020117020102020107020103"),
    (
        Message::DomainParameters,
        "3012020117020102020107300703020080020108",
    ),
    (Message::DhParameter, DH),
    (Message::DhParameter, "3009020117020102020110"),
];

/// The octets that are refused, and the number of their first error.
pub(super) const REFUSED: [(Message, &str, u8); 19] = [
    // the default trailer, a salt that is too long to say, and one below 0
    (Message::RsassaPssParams, "3005a303020101", 8),
    (Message::RsassaPssParams, "3009a20702050100000000", 7),
    (Message::RsassaPssParams, "3005a2030201ff", 13),
    // the trailer before the salt, a hash that is no SEQUENCE, and what is left over in an explicit tag
    (Message::RsassaPssParams, "300aa303020102a203020114", 3),
    (Message::RsassaPssParams, "3004a0020500", 4),
    (Message::RsassaPssParams, "3007a2050201140500", 3),
    // one number of a signature, three, one below 0, and one in more octets than it needs
    (Message::EcdsaSigValue, "3003020101", 2),
    (Message::EcdsaSigValue, "3009020101020102020103", 3),
    (Message::EcdsaSigValue, "30060201ff020102", 13),
    (Message::EcdsaSigValue, "300702020001020102", 8),
    // two numbers of DSA, four, one below 0, and one with a zero before its octets
    (Message::DssParms, "3006020117020102", 2),
    (Message::DssParms, "300c020117020102020107020101", 3),
    (Message::DssParms, "30090201170201020201f9", 13),
    (Message::DssParms, "300a02011702010202020007", 8),
    // what they were made from before the factor, twice, and with no octet of bits
    (
        Message::DomainParameters,
        "3015020117020102020107300703020080020108020103",
        3,
    ),
    (
        Message::DomainParameters,
        "301b020117020102020107300703020080020108300703020080020108",
        3,
    ),
    (
        Message::DomainParameters,
        "300d02011702010202010730020300",
        9,
    ),
    // a private value that is too long to say, and one below 0
    (Message::DhParameter, "300d02011702010202050100000000", 7),
    (Message::DhParameter, "30090201170201020201ff", 13),
];

/// Two encodings, and the order of their values.
pub(super) const ORDERED: [(Message, &str, &str, Ordering); 4] = [
    (
        Message::EcdsaSigValue,
        "3006020101020102",
        SIGNATURE,
        Ordering::Less,
    ),
    (
        Message::DssParms,
        DSA,
        "3009020117020102020107",
        Ordering::Greater,
    ),
    (
        Message::DomainParameters,
        "3009020117020102020107",
        DHX,
        Ordering::Less,
    ),
    (
        Message::DhParameter,
        "3009020117020102020110",
        "300902011702010202010f",
        Ordering::Greater,
    ),
];

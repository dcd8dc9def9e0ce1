//! Certification requests and encrypted keys: octets that were put together field by field, so that every two fields differ, and their whole text.

use crate::tests::certview::whole_texts::{
    Message, assert_cut_is_refused, assert_label, assert_text,
};
use certview_text::Kind;
use std::test::Fail;

/// A certification request for a key of five octets.
const REQUEST: Message = Message {
    kind: Kind::CertificationRequest,
    octets: "3081ad3081990201003011310f300d06035504030c066d696c6c6572300f300506032b65640306000102030405a070301706092a864886f70d010902310a0c086f6c64206d696c6c301b06092a864886f70d010907310e0c0c73656372657420776f726473303806092a864886f70d01090e312b302930170603551d110410300e820c6d696c6c2e6578616d706c65300e0603551d0f0101ff040403020780300a06082a8648ce3d0403020303000607",
    text: "    0   176  certification request\n    6     3  version: 1\n    9    19  subject: CN=miller\n   30     7  key algorithm: 1.3.101.100\n   37     8  key: 40 bits, 0102030405\n   47    25  attribute: 1.2.840.113549.1.9.2 (unstructuredName), old mill\n   72    29  attribute: 1.2.840.113549.1.9.7 (challengePassword), secret words\n  101    58  attribute: 1.2.840.113549.1.9.14 (extensionRequest)\n  118    25  extension: 2.5.29.17 (subjectAltName), 16 octets, host mill.example\n  143    16  extension: 2.5.29.15 (keyUsage), critical, 4 octets, digitalSignature\n  159    12  signature algorithm: 1.2.840.10045.4.3.2 (ecdsa-with-SHA256)\n  171     5  signature: 2 octets, 0607\n",
};

/// A key encrypted with PBES2.
const ENCRYPTED: Message = Message {
    kind: Kind::EncryptedPrivateKey,
    octets: "3052304906092a864886f70d01050d303c302706092a864886f70d01050c301a0403a1a2a302021000020120300c06082a864886f70d020b05003011060960864801650304012a0404b1b2b3b40405c1c2c3c4c5",
    text: "    0    84  encrypted private key\n    2    75  encryption algorithm: 1.2.840.113549.1.5.13 (PBES2)\n   17    41  key derivation: 1.2.840.113549.1.5.12 (PBKDF2)\n   32     5  salt: 3 octets, a1a2a3\n   37     4  iterations: 4096\n   41     3  key length: 32\n   44    14  pseudorandom function: 1.2.840.113549.2.11 (hmacWithSHA512)\n   58    19  cipher: 2.16.840.1.101.3.4.1.42 (aes256-CBC), b1b2b3b4\n   77     7  encrypted key: 5 octets\n",
};

/// A key encrypted with an algorithm of PKCS #12.
const ENCRYPTED_OLD: Message = Message {
    kind: Kind::EncryptedPrivateKey,
    octets: "301d3016060a2a864886f70d010c010330080402a1a202020bb80403c1c2c3",
    text: "    0    31  encrypted private key\n    2    24  encryption algorithm: 1.2.840.113549.1.12.1.3 (pbeWithSHAAnd3-KeyTripleDES-CBC)\n   18     4  salt: 2 octets, a1a2\n   22     4  iterations: 3000\n   26     5  encrypted key: 3 octets\n",
};

#[test]
fn shows_the_whole_text(rt: HostRuntime) -> Result<(), Fail> {
    for message in [REQUEST, ENCRYPTED, ENCRYPTED_OLD] {
        assert_text(&rt, rt.alloc(), &message)?;
    }
    Ok(())
}

#[test]
fn refuses_each_cut(rt: HostRuntime) -> Result<(), Fail> {
    for message in [REQUEST, ENCRYPTED, ENCRYPTED_OLD] {
        assert_cut_is_refused(&rt, rt.alloc(), &message)?;
    }
    Ok(())
}

#[test]
fn knows_the_labels(rt: HostRuntime) -> Result<(), Fail> {
    for (message, label) in [
        (REQUEST, "NEW CERTIFICATE REQUEST"),
        (ENCRYPTED, "ENCRYPTED PRIVATE KEY"),
        (ENCRYPTED_OLD, "ENCRYPTED PRIVATE KEY"),
    ] {
        assert_label(&rt, rt.alloc(), &message, label)?;
    }
    Ok(())
}

//! The labels of PEM text.

use crate::kind::Kind;
use std::fmt;

/// The label of a certificate that OpenSSL's trust settings may follow.
const TRUSTED: &str = "TRUSTED CERTIFICATE";

/// The labels of the messages that are shown (RFC 7468 sections 5 to 11 and 13). PKCS12 is a
/// label of GnuTLS; the other labels that the RFC lacks are those of OpenSSL. A label of more
/// than 32 octets is not among them.
const LABELS: [(&str, Kind); 25] = [
    ("CERTIFICATE", Kind::Certificate),
    ("X509 CERTIFICATE", Kind::Certificate),
    ("X.509 CERTIFICATE", Kind::Certificate),
    (TRUSTED, Kind::Certificate),
    ("X509 CRL", Kind::RevocationList),
    ("CRL", Kind::RevocationList),
    ("PUBLIC KEY", Kind::PublicKey),
    ("PRIVATE KEY", Kind::PrivateKey),
    ("RSA PRIVATE KEY", Kind::RsaPrivateKey),
    ("RSA PUBLIC KEY", Kind::RsaPublicKey),
    ("EC PRIVATE KEY", Kind::EcPrivateKey),
    ("DSA PRIVATE KEY", Kind::DsaPrivateKey),
    ("CERTIFICATE REQUEST", Kind::CertificationRequest),
    ("NEW CERTIFICATE REQUEST", Kind::CertificationRequest),
    ("ENCRYPTED PRIVATE KEY", Kind::EncryptedPrivateKey),
    ("OCSP REQUEST", Kind::OcspRequest),
    ("OCSP RESPONSE", Kind::OcspResponse),
    ("CMS", Kind::Cms),
    ("PKCS7", Kind::Cms),
    ("PKCS #7 SIGNED DATA", Kind::Cms),
    ("PKCS12", Kind::Pkcs12),
    ("EC PARAMETERS", Kind::EcParameters),
    ("DSA PARAMETERS", Kind::DsaParameters),
    ("DH PARAMETERS", Kind::DhParameters),
    ("X9.42 DH PARAMETERS", Kind::X942Parameters),
];

/// Returns the kind of message in a block with this label.
pub fn kind_with(label: &[u8]) -> Option<Kind> {
    for (name, kind) in &LABELS {
        if name.as_bytes() == label {
            return Some(*kind);
        }
    }
    None
}

/// Returns whether trust settings may follow the message of a block with this label.
pub fn may_have_settings(label: &[u8]) -> bool {
    label == TRUSTED.as_bytes()
}

/// A label as it is shown: its first 32 octets, with a `?` for each octet that is no printable
/// ASCII character.
#[derive(Clone, Copy, Debug, PartialEq, Eq)]
pub struct Label {
    octets: [u8; 32],
    count: usize,
}

impl Label {
    /// Returns the label of these octets.
    pub fn of(octets: &[u8]) -> Label {
        let mut shown = [b' '; 32];
        let count = octets.len().min(32);
        for index in 0..count {
            shown[index] = match octets[index] {
                octet @ 0x20..=0x7e => octet,
                _ => b'?',
            };
        }
        Label {
            octets: shown,
            count,
        }
    }

    fn as_str(&self) -> &str {
        let count = self.count.min(32);
        match str::from_utf8(&self.octets[..count]) {
            Ok(label) => label,
            Err(_) => "",
        }
    }
}

impl fmt::Display for Label {
    fn fmt<W: fmt::Write>(&self, f: &mut fmt::Formatter<W>) -> fmt::Result {
        let label = self.as_str();
        write!(f, "{label}")
    }
}

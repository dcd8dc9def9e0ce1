//! ASN.1 encoding rules that are not supported.

use der_asn1_types::ErrorKind;

/// Returns the text after the words of an error for octets that are BER and not DER: an
/// indefinite length (X.690 8.1.3.6, 10.1).
pub fn words_of_ber(kind: &ErrorKind) -> &'static str {
    match *kind {
        ErrorKind::IndefiniteLength => ": this is BER, which is not read",
        _ => "",
    }
}

//! OCSP requests and responses: octets that were put together field by field, so that every two fields differ, and their whole text.

use crate::tests::certview::whole_texts::{
    Message, assert_cut_is_refused, assert_label, assert_text,
};
use certview_text::Kind;
use std::test::Fail;

/// A signed OCSP request for two certificates.
const OCSP_REQUEST: Message = Message {
    kind: Kind::OcspRequest,
    octets: "30820102307ca114a4123010310e300c06035504030c0561736b6572304d30163014300706052b0e03021a0401a10402a2a3020200813033301c300b06096086480165030402010403b1b2b30404b4b5b6b702021234a0133011300f06092b060105050730010704020500a2153013301106092b060105050730010204040402c1c2a08181307f300506032b6570030400d1d2d3a070306e306c305d020105300506032b6570300e310c300a06035504030c03746f70301e170d3236303130313030303030305a170d3237303130313030303030305a3011310f300d06035504030c0661736b696e67300e300506032b657003050077777777300506032b6570030400888888",
    text: "    0   262  OCSP request\n             version: 1\n    6    22  requestor: directory CN=asker\n   50     4  serial number: 81\n   34     9  hash algorithm: 1.3.14.3.2.26 (sha1)\n   43     3  hash of issuer's name: 1 octets, a1\n   46     4  hash of issuer's key: 2 octets, a2a3\n   82     4  serial number: 12:34\n   58    13  hash algorithm: 2.16.840.1.101.3.4.2.1 (sha256)\n   71     5  hash of issuer's name: 3 octets, b1b2b3\n   76     6  hash of issuer's key: 4 octets, b4b5b6b7\n   90    17  extension of this certificate: 1.3.6.1.5.5.7.48.1.7 (serviceLocator), 2 octets, #0500\n  111    19  extension: 1.3.6.1.5.5.7.48.1.2 (ocspNonce), 4 octets, c1c2\n  135     7  signature algorithm: 1.3.101.112 (Ed25519)\n  142     6  signature: 3 octets, d1d2d3\n  152   110  certificate: 05, CN=asking\n",
};

/// An OCSP response about three certificates, one of each status.
const OCSP_RESPONSE: Message = Message {
    kind: Kind::OcspResponse,
    octets: "308201b90a0100a08201b2308201ae06092b06010505073001010482019f3082019b30820114a11530133111300f06035504030c08616e737765726572180f32303236303130313030303030305a3081d2303c3014300706052b0e03021a0401a10402a2a3020200818000180f32303236303230313030303030305aa011180f32303236303330313030303030305a3065301c300b06096086480165030402010403b1b2b30404b4b5b6b702021234a116180f32303235313233313233353935395aa0030a0104180f32303236303430313030303030305aa11c301a30180603551d180411180f32303235313232343030303030305a302b3016300b06096086480165030402020401c10401c20201038200180f32303236303530313030303030305aa1153013301106092b060105050730010204040402e1e2300506032b6570030500d1d2d3d4a0733071306f3060020106300506032b6570300e310c300a06035504030c03746f70301e170d3236303130313030303030305a170d3237303130313030303030305a30143112301006035504030c09616e73776572696e67300e300506032b657003050077777777300506032b6570030400888888",
    text: "    0   445  OCSP response\n    4     3  status: successful\n   15    11  response type: 1.3.6.1.5.5.7.48.1.1 (ocspBasic)\n             version: 1\n   40    21  responder: CN=answerer\n   61    17  produced at: 2026-01-01 00:00:00 UTC\n  101     4  serial number: 81\n   85     9  hash algorithm: 1.3.14.3.2.26 (sha1)\n   94     3  hash of issuer's name: 1 octets, a1\n   97     4  hash of issuer's key: 2 octets, a2a3\n  105     2  status: good\n  107    17  this update: 2026-02-01 00:00:00 UTC\n  124    19  next update: 2026-03-01 00:00:00 UTC\n  171     4  serial number: 12:34\n  147    13  hash algorithm: 2.16.840.1.101.3.4.2.1 (sha256)\n  160     5  hash of issuer's name: 3 octets, b1b2b3\n  165     6  hash of issuer's key: 4 octets, b4b5b6b7\n  175    24  status: revoked, 2025-12-31 23:59:59 UTC, superseded\n  199    17  this update: 2026-04-01 00:00:00 UTC\n  220    26  extension of this certificate: 2.5.29.24 (invalidityDate), 17 octets, 2025-12-24 00:00:00 UTC\n  269     3  serial number: 03\n  250    13  hash algorithm: 2.16.840.1.101.3.4.2.2 (sha384)\n  263     3  hash of issuer's name: 1 octets, c1\n  266     3  hash of issuer's key: 1 octets, c2\n  272     2  status: unknown\n  274    17  this update: 2026-05-01 00:00:00 UTC\n  295    19  extension: 1.3.6.1.5.5.7.48.1.2 (ocspNonce), 4 octets, e1e2\n  314     7  signature algorithm: 1.3.101.112 (Ed25519)\n  321     7  signature: 4 octets, d1d2d3d4\n  332   113  certificate: 06, CN=answering\n",
};

/// An OCSP response with only a status.
const OCSP_REFUSAL: Message = Message {
    kind: Kind::OcspResponse,
    octets: "30030a0106",
    text: "    0     5  OCSP response\n    2     3  status: unauthorized\n",
};

#[test]
fn shows_the_whole_text(rt: HostRuntime) -> Result<(), Fail> {
    for message in [OCSP_REQUEST, OCSP_RESPONSE, OCSP_REFUSAL] {
        assert_text(&rt, rt.alloc(), &message)?;
    }
    Ok(())
}

#[test]
fn refuses_each_cut(rt: HostRuntime) -> Result<(), Fail> {
    for message in [OCSP_REQUEST, OCSP_RESPONSE, OCSP_REFUSAL] {
        assert_cut_is_refused(&rt, rt.alloc(), &message)?;
    }
    Ok(())
}

#[test]
fn knows_the_labels(rt: HostRuntime) -> Result<(), Fail> {
    for (message, label) in [
        (OCSP_REQUEST, "OCSP REQUEST"),
        (OCSP_RESPONSE, "OCSP RESPONSE"),
        (OCSP_REFUSAL, "OCSP RESPONSE"),
    ] {
        assert_label(&rt, rt.alloc(), &message, label)?;
    }
    Ok(())
}

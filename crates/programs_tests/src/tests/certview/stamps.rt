//! Time stamps, asked and answered: octets that were put together field by field, so that every two fields differ, and their whole text.

use crate::tests::certview::whole_texts::{Message, assert_cut_is_refused, assert_text};
use certview_text::Kind;
use std::test::Fail;

/// A time stamp query.
const STAMP_QUERY: Message = Message {
    kind: Kind::TimeStampQuery,
    octets: "30300201013012300b06096086480165030402010403a1a2a306032a0304020200990101ffa00b300906032a030904020500",
    text: "    0    50  time stamp query\n    2     3  version: 1\n    7    13  digest algorithm: 2.16.840.1.101.3.4.2.1 (sha256)\n   20     5  digest: 3 octets, a1a2a3\n   25     5  policy: 1.2.3.4\n   30     4  nonce: 99\n   34     3  with certificate: yes\n   39    11  extension: 1.2.3.9, 2 octets, #0500\n",
};

/// A time stamp reply, granted with changes.
const STAMP_REPLY: Message = Message {
    kind: Kind::TimeStampReply,
    octets: "3081f1301d02010130180c0c77697468206368616e6765730c0861732061736b65643081cf06092a864886f70d010702a081c13081be020103310d300b06096086480165030402033073060b2a864886f70d0109100104a0640462306002010106032a03053011300b06096086480165030402020402b1b202024321180f32303236303830313032303330345a300a020103800201f48101070101ff020177a00f820d7374616d702e6578616d706c65a10b300906032a03080402050031353033020101301730123110300e06035504030c077374616d706572020115300b0609608648016503040201300506032b65700401f1",
    text: "    0   244  time stamp reply\n    5     3  status: grantedWithMods\n   10    14  status text: with changes\n   24    10  status text: as asked\n   37    11  content type: 1.2.840.113549.1.7.2 (signedData)\n   54     3  version: 3\n   59    13  digest algorithm: 2.16.840.1.101.3.4.2.3 (sha512)\n   74    13  content type: 1.2.840.113549.1.9.16.1.4 (TSTInfo)\n   93     3  version: 1\n   96     5  policy: 1.2.3.5\n  103    13  digest algorithm: 2.16.840.1.101.3.4.2.2 (sha384)\n  116     4  digest: 2 octets, b1b2\n  120     4  serial number: 43:21\n  124    17  time: 2026-08-01 02:03:04 UTC\n  141    12  accuracy: 3 s, 500 ms, 7 us\n  153     3  in order: yes\n  156     3  nonce: 77\n  159    17  authority: host stamp.example\n  178    11  extension: 1.2.3.8, 2 octets, #0500\n  196    25  signer: 15, CN=stamper\n  193     3  version: 1\n  221    13  digest algorithm: 2.16.840.1.101.3.4.2.1 (sha256)\n  234     7  signature algorithm: 1.3.101.112 (Ed25519)\n  241     3  signature: 1 octets, f1\n",
};

/// The reply with a time that has a fraction of a second.
const FRACTIONAL_REPLY: Message = Message {
    kind: Kind::TimeStampReply,
    octets: "3081f4301d02010130180c0c77697468206368616e6765730c0861732061736b65643081d206092a864886f70d010702a081c43081c1020103310d300b06096086480165030402033076060b2a864886f70d0109100104a0670465306302010106032a03053011300b06096086480165030402020402b1b202024321181232303236303830313032303330342e32355a300a020103800201f48101070101ff020177a00f820d7374616d702e6578616d706c65a10b300906032a03080402050031353033020101301730123110300e06035504030c077374616d706572020115300b0609608648016503040201300506032b65700401f1",
    text: "    0   247  time stamp reply\n    5     3  status: grantedWithMods\n   10    14  status text: with changes\n   24    10  status text: as asked\n   37    11  content type: 1.2.840.113549.1.7.2 (signedData)\n   54     3  version: 3\n   59    13  digest algorithm: 2.16.840.1.101.3.4.2.3 (sha512)\n   74    13  content type: 1.2.840.113549.1.9.16.1.4 (TSTInfo)\n   93     3  version: 1\n   96     5  policy: 1.2.3.5\n  103    13  digest algorithm: 2.16.840.1.101.3.4.2.2 (sha384)\n  116     4  digest: 2 octets, b1b2\n  120     4  serial number: 43:21\n  124    20  time: 2026-08-01 02:03:04.25 UTC\n  144    12  accuracy: 3 s, 500 ms, 7 us\n  156     3  in order: yes\n  159     3  nonce: 77\n  162    17  authority: host stamp.example\n  181    11  extension: 1.2.3.8, 2 octets, #0500\n  199    25  signer: 15, CN=stamper\n  196     3  version: 1\n  224    13  digest algorithm: 2.16.840.1.101.3.4.2.1 (sha256)\n  237     7  signature algorithm: 1.3.101.112 (Ed25519)\n  244     3  signature: 1 octets, f1\n",
};

/// A time stamp reply that is a rejection.
const STAMP_REFUSAL: Message = Message {
    kind: Kind::TimeStampReply,
    octets: "30093007020102030202a4",
    text: "    0    11  time stamp reply\n    4     3  status: rejection\n    7     4  failure: badAlg, badRequest, badDataFormat\n",
};

#[test]
fn shows_the_whole_text(rt: HostRuntime) -> Result<(), Fail> {
    for message in [STAMP_QUERY, STAMP_REPLY, FRACTIONAL_REPLY, STAMP_REFUSAL] {
        assert_text(&rt, rt.alloc(), &message)?;
    }
    Ok(())
}

#[test]
fn refuses_each_cut(rt: HostRuntime) -> Result<(), Fail> {
    for message in [STAMP_QUERY, STAMP_REPLY, FRACTIONAL_REPLY, STAMP_REFUSAL] {
        assert_cut_is_refused(&rt, rt.alloc(), &message)?;
    }
    Ok(())
}

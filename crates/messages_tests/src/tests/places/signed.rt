//! Places in signed messages.

use super::at;
use crate::tests::same;
use der_cms::cms::{ContentInfo, SignedData};
use der_elem::FromDer;
use der_places::cms::{
    ContentInfoPlaces, EncapsulatedContentInfoPlaces, SignedDataPlaces, SignerInfoPlaces,
};
use der_places::places_of;
use std::alloc::Global;
use std::test::Fail;

/// `openssl cms -sign -in hello.txt -signer mill.pem -inkey mill.key -nodetach -nocerts -binary
/// -nosmimecap`.
const MESSAGE: &str =
    "3082013a06092a864886f70d010702a082012b30820127020101310d300b0609608648016503040201301406092a864886f70d010701a007040568656c6c6f3181fc3081f90201013027300f310d300b06035504030c046d696c6c02145f33fbe19b5fb474022799b0529eae0e2f197060300b0609608648016503040201a069301806092a864886f70d010903310b06092a864886f70d010701301c06092a864886f70d010905310f170d3236313132383038323532395a302f06092a864886f70d010904312204202cf24dba5fb0a30e26e83b2ac5b9e29e1b161e5c1fa7425e73043362938b9824300a06082a8648ce3d0403020447304502206c4ce2feaf5f52685d4179299e8a4eb83848f3f5016d7700a53885ffc7b0c3d1022100903cca7f2f6e3c90c4873b3df407dfd98aa66c7b3b40e65e2c50ea89ae2e0fb6";

// Returns the byte ranges of the fields of a message.
fn fields(alloc: Global, octets: &[u8]) -> Result<ContentInfoPlaces, u8> {
    match ContentInfo::from_der(alloc, octets) {
        Ok(message) => Ok(places_of(&message, octets, 0)),
        Err(e) => Err(e.kind().number()),
    }
}

// Returns the byte ranges of the fields of the SignedData, of its content and of its first
// signer.
fn inner(
    alloc: Global,
    octets: &[u8],
) -> Result<
    (
        SignedDataPlaces,
        EncapsulatedContentInfoPlaces,
        Option<SignerInfoPlaces>,
    ),
    u8,
> {
    match SignedData::from_der(alloc, octets) {
        Ok(data) => {
            let parts = places_of(&data, octets, 0);
            let content = data.encap_content_info();
            let content = places_of(content, octets, parts.encap_content_info.offset);
            let signer = match data.signer_infos().get(alloc, 0) {
                Some(Ok(signer)) => Some(places_of(&signer, octets, 47)),
                _ => None,
            };
            Ok((parts, content, signer))
        }
        Err(e) => Err(e.kind().number()),
    }
}

#[test]
fn the_fields_of_a_message_stand_where_openssl_says(rt: HostRuntime) -> Result<(), Fail> {
    let alloc = rt.alloc();
    let octets = hex::decode(alloc, MESSAGE)?;
    let parts = ContentInfoPlaces {
        content_type: at(4, 11),
        content: at(15, 303),
    };
    same(&rt, fields(alloc, octets.as_slice()), Ok(parts));
    Ok(())
}

#[test]
fn the_fields_of_signed_data_stand_where_openssl_says(rt: HostRuntime) -> Result<(), Fail> {
    let alloc = rt.alloc();
    let octets = hex::decode(alloc, MESSAGE)?;
    let parts = SignedDataPlaces {
        version: at(4, 3),
        digest_algorithms: at(7, 15),
        encap_content_info: at(22, 22),
        certificates: at(44, 0),
        crls: at(44, 0),
        signer_infos: at(44, 255),
    };
    let content = EncapsulatedContentInfoPlaces {
        e_content_type: at(24, 11),
        e_content: at(35, 9),
    };
    let signer = SignerInfoPlaces {
        version: at(50, 3),
        sid: at(53, 41),
        digest_algorithm: at(94, 13),
        signed_attrs: at(107, 107),
        signature_algorithm: at(214, 12),
        signature: at(226, 73),
        unsigned_attrs: at(299, 0),
    };
    let found = inner(alloc, octets.as_slice().get(19..).unwrap_or(&[]));
    same(&rt, found, Ok((parts, content, Some(signer))));
    Ok(())
}

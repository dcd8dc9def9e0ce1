//! Places in requests for certificates.

use super::at;
use crate::tests::same;
use der_elem::FromDer;
use der_pkcs::request::CertificationRequest;
use der_places::places_of;
use der_places::request::{CertificationRequestInfoPlaces, CertificationRequestPlaces};
use std::alloc::Global;
use std::test::Fail;

/// `openssl req -new -key mill.key -subj /CN=mill -addext subjectAltName=DNS:mill`.
const REQUEST: &str =
    "3081b03064020100300f310d300b06035504030c046d696c6c302a300506032b6570032100bc883ff0865c26f855de8d898353a85b35f40de18d795018e9e51bf923732a84a022302006092a864886f70d01090e31133011300f0603551d110408300682046d696c6c300506032b6570034100e041477978c28f4d2e36bd0f0ced526489df9700c404a525288e85c0a3691a273507375851bcb9c33b8d351c7cb9589ba1ba5270cc281ac04f7cb12d27fd4e09";

// Returns the byte ranges of the fields of a request and of its signed part.
fn fields(
    alloc: Global,
    octets: &[u8],
) -> Result<(CertificationRequestPlaces, CertificationRequestInfoPlaces), u8> {
    match CertificationRequest::from_der(alloc, octets) {
        Ok(request) => {
            let parts = places_of(&request, octets, 0);
            let offset = parts.certification_request_info.offset;
            let info = request.certification_request_info();
            Ok((parts, places_of(info, octets, offset)))
        }
        Err(e) => Err(e.kind().number()),
    }
}

#[test]
fn the_fields_of_a_request_stand_where_openssl_says(rt: HostRuntime) -> Result<(), Fail> {
    let alloc = rt.alloc();
    let octets = hex::decode(alloc, REQUEST)?;
    let parts = CertificationRequestPlaces {
        certification_request_info: at(3, 102),
        signature_algorithm: at(105, 7),
        signature: at(112, 67),
    };
    let info = CertificationRequestInfoPlaces {
        version: at(5, 3),
        subject: at(8, 17),
        subject_pk_info: at(25, 44),
        attributes: at(69, 36),
    };
    same(&rt, fields(alloc, octets.as_slice()), Ok((parts, info)));
    Ok(())
}

//! Places in answers about the status of certificates.

use super::at;
use crate::tests::same;
use der_elem::FromDer;
use der_ocsp::ocsp::{BasicOcspResponse, OcspResponse};
use der_places::ocsp::{
    BasicOcspResponsePlaces, OcspResponsePlaces, ResponseBytesPlaces, ResponseDataPlaces,
    SingleResponsePlaces,
};
use der_places::{contents_of, places_of};
use std::alloc::Global;
use std::test::Fail;

/// `openssl ocsp -index index -CA mill.pem -rsigner mill.pem -rkey mill.key -reqin o.req -ndays 7
/// -resp_no_certs -resp_key_id`, for one good certificate and one revoked one.
const ANSWER: &str =
    "308201820a0100a082017b3082017706092b060105050730010104820168308201643082010aa2160414420a99e3653456b1094d5e1d440a30017e90f1b9180f32303236313132383038323532395a3081de3062303a300906052b0e03021a050004141dd2f1ee5750656f97110b338c846ee99db6d7670414420a99e3653456b1094d5e1d440a30017e90f1b90201018000180f32303236313132383038323532395aa011180f32303236313230353038323532395a3078303a300906052b0e03021a050004141dd2f1ee5750656f97110b338c846ee99db6d7670414420a99e3653456b1094d5e1d440a30017e90f1b9020102a116180f32303236303130323033303430355aa0030a0101180f32303236313132383038323532395aa011180f32303236313230353038323532395a300a06082a8648ce3d040302034800304502200885cf84626f7a3ae683035288c9e9231ded87cf66f4f1434885e86c1fdd607a022100ea1fd4ba60a25b1423c6659367b8e4f6154a11421dab500a2e3f0e2637846af3";

// Returns the byte ranges of the fields of a response and of its contents.
fn fields(
    alloc: Global,
    octets: &[u8],
) -> Result<(OcspResponsePlaces, Option<ResponseBytesPlaces>), u8> {
    match OcspResponse::from_der(alloc, octets) {
        Ok(answer) => {
            let parts = places_of(&answer, octets, 0);
            let offset = contents_of(octets, parts.response_bytes).offset;
            let bytes = match answer.response_bytes() {
                Some(bytes) => Some(places_of(bytes, octets, offset)),
                None => None,
            };
            Ok((parts, bytes))
        }
        Err(e) => Err(e.kind().number()),
    }
}

// Returns the byte ranges of the fields of the basic response, of its data and of its second
// single response.
fn inner(
    alloc: Global,
    octets: &[u8],
) -> Result<
    (
        BasicOcspResponsePlaces,
        ResponseDataPlaces,
        Option<SingleResponsePlaces>,
    ),
    u8,
> {
    match BasicOcspResponse::from_der(alloc, octets) {
        Ok(basic) => {
            let parts = places_of(&basic, octets, 0);
            let signed = basic.tbs_response_data();
            let data = places_of(signed, octets, parts.tbs_response_data.offset);
            let second = match signed.responses().items().get(alloc, 1) {
                Some(Ok(second)) => Some(places_of(&second, octets, 152)),
                _ => None,
            };
            Ok((parts, data, second))
        }
        Err(e) => Err(e.kind().number()),
    }
}

#[test]
fn the_fields_of_an_answer_stand_where_openssl_says(rt: HostRuntime) -> Result<(), Fail> {
    let alloc = rt.alloc();
    let octets = hex::decode(alloc, ANSWER)?;
    let parts = OcspResponsePlaces {
        response_status: at(4, 3),
        response_bytes: at(7, 383),
    };
    let bytes = ResponseBytesPlaces {
        response_type: at(15, 11),
        response: at(26, 364),
    };
    let found = fields(alloc, octets.as_slice());
    same(&rt, found, Ok((parts, Some(bytes))));
    Ok(())
}

#[test]
fn the_fields_of_what_is_signed_stand_where_openssl_says(rt: HostRuntime) -> Result<(), Fail> {
    let alloc = rt.alloc();
    let octets = hex::decode(alloc, ANSWER)?;
    let parts = BasicOcspResponsePlaces {
        tbs_response_data: at(4, 270),
        signature_algorithm: at(274, 12),
        signature: at(286, 74),
        certs: at(360, 0),
    };
    let data = ResponseDataPlaces {
        version: at(8, 0),
        responder_id: at(8, 24),
        produced_at: at(32, 17),
        responses: at(49, 225),
        response_extensions: at(274, 0),
    };
    let second = SingleResponsePlaces {
        cert_id: at(154, 60),
        cert_status: at(214, 24),
        this_update: at(238, 17),
        next_update: at(255, 19),
        single_extensions: at(274, 0),
    };
    let found = inner(alloc, octets.as_slice().get(30..).unwrap_or(&[]));
    same(&rt, found, Ok((parts, data, Some(second))));
    Ok(())
}

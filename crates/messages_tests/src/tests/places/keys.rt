//! Places in private keys.

use super::at;
use crate::tests::same;
use der_elem::FromDer;
use der_pkix::key::OneAsymmetricKey;
use der_places::key::OneAsymmetricKeyPlaces;
use der_places::places_of;
use std::alloc::Global;
use std::test::Fail;

// Returns the byte ranges of the fields of a private key.
fn fields(alloc: Global, octets: &[u8]) -> Result<OneAsymmetricKeyPlaces, u8> {
    match OneAsymmetricKey::from_der(alloc, octets) {
        Ok(key) => Ok(places_of(&key, octets, 0)),
        Err(e) => Err(e.kind().number()),
    }
}

#[test]
fn the_fields_of_a_private_key_stand_where_openssl_says(rt: HostRuntime) -> Result<(), Fail> {
    let alloc = rt.alloc();
    let digits =
        "302e020100300506032b65700422042051bdb3bec919a6cba8a3f45773e1a1210fbc44dfe6ee5526f6e44e908e8f9ab7";
    let octets = hex::decode(alloc, digits)?;
    let key = OneAsymmetricKeyPlaces {
        version: at(2, 3),
        private_key_algorithm: at(5, 7),
        private_key: at(12, 36),
        attributes: at(48, 0),
        public_key: at(48, 0),
    };
    same(&rt, fields(alloc, octets.as_slice()), Ok(key));
    Ok(())
}

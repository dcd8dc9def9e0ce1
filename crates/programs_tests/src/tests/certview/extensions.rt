//! Extensions as they are shown: what OpenSSL wrote, and lines of what `openssl x509 -text`, `openssl crl -text`
//! and `openssl asn1parse` say of it.

use crate::tests::certview::assert_contains;
use crate::tests::certview::messages::{CONSTRAINTS, DELTA};
use certview_text::{kind_of, shown};
use std::test::Fail;

#[test]
fn shows_constraints_and_periods(rt: HostRuntime) -> Result<(), Fail> {
    let rows = [
        (
            CONSTRAINTS,
            "  160    89  extension: 2.5.29.30 (nameConstraints), critical, 77 octets, permitted host barley.example, permitted address 10.0.0.0/255.0.0.0, excluded mail .pulley.example, excluded directory O=Grain\n",
        ),
        (
            CONSTRAINTS,
            "  399    45  extension: 2.5.29.16 (privateKeyUsagePeriod), 36 octets, not before 2025-01-02 03:04:05 UTC, not after 2026-01-02 03:04:05 UTC\n",
        ),
        (
            CONSTRAINTS,
            "  444    64  extension: 2.5.29.9 (subjectDirectoryAttributes), 55 octets, countryOfCitizenship=DE+SE, dateOfBirth=#180f31393830303130323132303030305a\n",
        ),
        (
            DELTA,
            ": 2.5.29.28 (issuingDistributionPoint), critical, 46 octets, resource http://lists.example/one.crl, only CA certificates, only some reasons, keyCompromise, cACompromise, indirect\n",
        ),
        (
            DELTA,
            ": 2.5.29.27 (deltaCRLIndicator), critical, 3 octets, 5\n",
        ),
    ];
    for (message, line) in rows {
        let octets = hex::decode(rt.alloc(), message)?;
        let text = shown(rt.alloc(), kind_of(octets.as_slice()), octets.as_slice())?;
        assert_contains(&rt, text.as_str(), line);
    }
    Ok(())
}

#[test]
fn shows_policies(rt: HostRuntime) -> Result<(), Fail> {
    let octets = hex::decode(rt.alloc(), CONSTRAINTS)?;
    let text = shown(rt.alloc(), kind_of(octets.as_slice()), octets.as_slice())?;
    for line in [
        "  249    39  extension: 2.5.29.33 (policyMappings), 30 octets, issuer's 1.3.5.8.1 is subject's 2.5.29.32.0 (anyPolicy), issuer's 1.3.5.8.2 is subject's 1.3.5.9.2\n",
        "  288   111  extension: 2.5.29.32 (certificatePolicies), 102 octets, 1.3.5.8.1, 1.3.5.8.2 with 1.3.6.1.5.5.7.2.1 (cps) http://cps.example/ with 1.3.6.1.5.5.7.2.2 (unotice) #30101a064261726c65793006020101020102 and Read\\, then sign\n",
    ] {
        assert_contains(&rt, text.as_str(), line);
    }
    Ok(())
}

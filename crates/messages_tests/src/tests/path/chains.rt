//! Chains of certificates (RFC 5280 section 6.1). `tests/paths.py` has those of PKITS.

use crate::tests::same_in;
use crate::tests::verify::data::CERTIFICATE;
use der_asn1_types::FromDer;
use der_modules::copy_of;
use der_path::PathError::{Empty, NotRead, Refused};
use der_path::{Anchor, Inputs, PathError, Policy, Step, check_path};
use der_pkix::certificate::Certificate;
use std::alloc::Global;
use std::test::Fail;

// Returns the number of policies, and of what has to verify, for a certificate so many times, up
// to two, after its own subject.
fn counts_told(
    alloc: Global,
    octets: &[u8],
    count: usize,
    moment: u64,
    explicit_policy: bool,
) -> Result<(usize, usize), PathError> {
    let anchor = match Certificate::from_der(alloc, octets) {
        Ok(certificate) => certificate,
        Err(error) => return Err(NotRead(0, error)),
    };
    let anchor = Anchor {
        name: copy_of(anchor.tbs_certificate().subject()),
        key: copy_of(anchor.tbs_certificate().subject_public_key_info()),
    };
    let chain = [octets, octets];
    let policies = [Policy {
        octets: &[0x55, 0x1d, 0x20, 0x00],
    }];
    let inputs = Inputs {
        moment,
        policies: &policies,
        mapping_inhibit: false,
        explicit_policy,
        any_policy_inhibit: false,
        constraints: None,
    };
    match check_path(alloc, &anchor, &chain[..count.min(2)], inputs) {
        Ok(found) => Ok((found.policies.len(), found.verifications.len())),
        Err(error) => Err(error),
    }
}

#[test]
fn a_certificate_follows_its_own_subject(rt: HostRuntime) -> Result<(), Fail> {
    let alloc = rt.alloc();
    let octets = hex::decode(alloc, CERTIFICATE)?;
    // the number of certificates, the moment, whether a policy is required, and the answer
    let rows = [
        (0, 2_524_607_999, false, Err(Empty)),
        (1, 2_524_607_998, false, Err(Refused(0, Step::Validity))),
        (1, 2_524_607_999, false, Ok((0, 1))),
        (1, 2_524_608_000, true, Err(Refused(0, Step::Policies))),
        (2, 2_524_608_000, false, Ok((0, 2))),
        (2, 2_524_608_001, false, Err(Refused(0, Step::Validity))),
    ];
    for (count, moment, explicit, wanted) in rows {
        let found = counts_told(alloc, octets.as_slice(), count, moment, explicit);
        same_in(&rt, &(count, moment, explicit), found, wanted);
    }
    Ok(())
}

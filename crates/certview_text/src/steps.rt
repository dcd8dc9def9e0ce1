//! The steps of RFC 5280 section 6.1 that refuse a certificate, in words.

use der_path::Step;

/// Returns why a step refuses a certificate.
pub(crate) fn words_of_step(step: Step) -> &'static str {
    match step {
        Step::Validity => "it is not valid at the moment",
        Step::Issuer => "its issuer is not the subject of the certificate before it",
        Step::Permitted => "a name is not within the permitted subtrees",
        Step::Excluded => "a name is within an excluded subtree",
        Step::Policies => "a policy is required, and none is left",
        Step::AnyPolicyIsMapped => "it maps anyPolicy",
        Step::Ca => "it is no certificate of a CA in version 3",
        Step::PathLength => "a pathLenConstraint allows no certificate of a CA here",
        Step::KeyUsage => "its keyUsage does not have keyCertSign",
        Step::UnknownExtension | Step::UnknownExtensionAtEnd => {
            "it has a critical extension that is not processed"
        }
        Step::UserPolicies => "a policy of the user is required, and none is left",
    }
}

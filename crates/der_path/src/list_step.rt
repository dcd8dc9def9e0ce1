//! The steps of RFC 5280 that refuse a list of revoked certificates.

ghost use Rattle.std.specs.Prelude.{◌≡◌};
ghost use Rattle.der_path.specs.ListSteps.{list_letter};

/// A step for which a list does not tell the status of a certificate.
#[derive(Clone, Copy, Debug, PartialEq, Eq)]
pub enum ListStep {
    /// 5.2.4: the list is a delta CRL.
    Delta,
    /// 5.2: a critical extension of the list is not processed.
    UnknownExtension,
    /// 5.3: an extension of an entry stands twice, or its value cannot be read.
    UnreadEntry,
    /// 5.3: a critical extension of an entry is not processed.
    UnknownEntryExtension,
    /// 6.3.3 (b)(1): the issuer of the list is not the issuer of the certificate.
    Issuer,
    /// 6.3.3 (b)(2)(i): the list is of other distribution points.
    PointName,
    /// 6.3.3 (b)(2)(ii): the list has end entities alone, and the certificate is a CA's.
    UserCertificates,
    /// 6.3.3 (b)(2)(iii): the list has CAs alone, and the certificate is no CA's.
    CaCertificates,
    /// 6.3.3 (b)(2)(iv): the list has attribute certificates alone.
    AttributeCertificates,
    /// 5.1.2.4: the list is issued after the moment.
    ThisUpdate,
    /// 6.3.3 (a)(1): the moment is after nextUpdate.
    NextUpdate,
    /// 6.3.3 (e): the list has no reason that is not known yet.
    NoNewReasons,
}

impl ListStep {
    /// Returns the section and the letter, such as `6.3.3 (b)(1)`.
    pub fn letter(self) -> &'static str
        ensures { result.now ≡ list_letter self }
    {
        match self {
            ListStep::Delta => "5.2.4",
            ListStep::UnknownExtension => "5.2",
            ListStep::UnreadEntry => "5.3",
            ListStep::UnknownEntryExtension => "5.3",
            ListStep::Issuer => "6.3.3 (b)(1)",
            ListStep::PointName => "6.3.3 (b)(2)(i)",
            ListStep::UserCertificates => "6.3.3 (b)(2)(ii)",
            ListStep::CaCertificates => "6.3.3 (b)(2)(iii)",
            ListStep::AttributeCertificates => "6.3.3 (b)(2)(iv)",
            ListStep::ThisUpdate => "5.1.2.4",
            ListStep::NextUpdate => "6.3.3 (a)(1)",
            ListStep::NoNewReasons => "6.3.3 (e)",
        }
    }
}

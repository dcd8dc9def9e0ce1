//! The steps of RFC 6960 that refuse an answer.

ghost use Rattle.std.specs.Prelude.{◌≡◌};
ghost use Rattle.der_path.specs.OcspSteps.{ocsp_letter};

/// A step for which an answer does not tell the status of a certificate.
#[derive(Clone, Copy, Debug, PartialEq, Eq)]
pub enum OcspStep {
    /// 4.4: an extension of the answer, or of the part about the certificate, is critical.
    CriticalExtension,
    /// 3.2 (1): the answer is not about the certificate.
    NotAnswered,
    /// 3.2 (5): the status is known to be correct only after the moment.
    ThisUpdate,
    /// 3.2 (6): newer information is available at the moment.
    NextUpdate,
    /// 3.2 (4): the answer names no one who may sign it (4.2.2.2).
    NoResponder,
}

impl OcspStep {
    /// Returns the section and the number, such as `3.2 (1)`.
    pub fn letter(self) -> &'static str
        ensures { result.now ≡ ocsp_letter self }
    {
        match self {
            OcspStep::CriticalExtension => "4.4",
            OcspStep::NotAnswered => "3.2 (1)",
            OcspStep::ThisUpdate => "3.2 (5)",
            OcspStep::NextUpdate => "3.2 (6)",
            OcspStep::NoResponder => "3.2 (4)",
        }
    }
}

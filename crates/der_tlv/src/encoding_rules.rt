//! The rules that a reader follows.

ghost use Rattle.std.specs.Prelude.{◌≡◌, ◌↔◌, IsTrue};

/// The encoding rules of X.690 that a reader follows.
///
/// `Ber` reads the same headers and contents as `Der`; it omits one check, that of the
/// constructed bit of an implicitly tagged field.
#[derive(Clone, Copy, Debug, PartialEq, Eq, Default)]
pub enum EncodingRules {
    /// The distinguished encoding rules: one encoding for each value.
    #[default]
    Der,
    /// The basic encoding rules, as far as this layer supports them.
    Ber,
}

impl EncodingRules {
    /// Returns whether these are the distinguished encoding rules.
    pub fn is_der(self) -> bool
        ensures { IsTrue result ↔ (self ≡ EncodingRules.Der) }
    {
        match self {
            EncodingRules::Der => true,
            EncodingRules::Ber => false,
        }
    }
}

/// Returns the default rules, which are DER.
pub fn default_rules() -> EncodingRules
    ensures { result ≡ EncodingRules.Der }
{
    EncodingRules::default()
}

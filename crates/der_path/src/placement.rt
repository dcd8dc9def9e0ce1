//! The placement of a name in the subtree of a name constraint (RFC 5280 section 4.2.1.10).

ghost use Rattle.std.specs.Prelude.{◌≡◌};
ghost use Rattle.der_path.specs.Placement.{inside_if, is_inside, is_outside, is_undefined};

/// The placement of a name in the subtree of a name constraint.
#[derive(Clone, Copy, Debug, PartialEq, Eq)]
pub enum Placement {
    /// The constraint is for another kind of name, so it does not apply to this one.
    OtherKind,
    /// The name is within the subtree.
    Inside,
    /// The name is not within the subtree.
    Outside,
    /// Section 4.2.1.10 does not define the placement: it has no constraints for the kind of
    /// name, or the name or the constraint does not have the required form.
    Undefined,
}

impl Placement {
    /// Returns the placement of a name that is inside if a test holds, and outside if it does
    /// not.
    pub(crate) fn inside_if(holds: bool) -> Placement
        ensures { result ≡ inside_if holds }
    {
        if holds {
            Placement::Inside
        } else {
            Placement::Outside
        }
    }

    /// Returns whether the name is inside.
    pub(crate) fn is_inside(self) -> bool
        ensures { result ≡ is_inside self }
    {
        match self {
            Placement::Inside => true,
            _ => false,
        }
    }

    /// Returns whether the name is outside.
    pub(crate) fn is_outside(self) -> bool
        ensures { result ≡ is_outside self }
    {
        match self {
            Placement::Outside => true,
            _ => false,
        }
    }

    /// Returns whether the placement is undefined.
    pub(crate) fn is_undefined(self) -> bool
        ensures { result ≡ is_undefined self }
    {
        match self {
            Placement::Undefined => true,
            _ => false,
        }
    }
}

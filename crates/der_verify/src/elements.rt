//! Encodings one after another, as they stand in the value of an extension and in a name.
//!
//! An identifier has one octet in RFC 5280's modules, and a length at most three octets after its
//! first: octets in another form begin with no encoding.

ghost use Rattle.std.specs.Prelude.{◌≡◌, ℕ, ◌<◌, ◌≤◌, ◌^◌, List, [], ◌∷◌, ◌++◌, length, Some, IfSome};
ghost use Rattle.der_tlv.specs.declared.tag.Tag.{Tag};
ghost use Rattle.der_tlv.specs.HeaderOctets.{tlv};
ghost use Rattle.der_tlv.specs.Identifier.{identifier};
ghost use Rattle.der_verify.specs.Elements.{after_length, front_of, has_identifier, one_is, one_within, seen_front, seen_split, split_at, within};

/// Returns the encoding at the front of octets: the first octet of its identifier, its contents
/// octets, and the octets after it.
pub(crate) fn front<'a>(octets: &'a [u8]) -> Option<(u8, &'a [u8], &'a [u8])>
    ensures value { seen_front result ≡ front_of octets.now }
    ensures shorter { IfSome result (λ found. length found.2.now < length octets.now) }
{
    let [identifier, first, rest @ ..] = octets else {
        return None;
    };
    match after_length(*first, rest) {
        Some((contents, others)) => Some((*identifier, contents, others)),
        None => None,
    }
}

/// What `front` finds is the encoding at the front (X.690 8.1.1), where its identifier has one
/// octet and it has less than 16777216 contents octets.
pub(crate) fn fronts_are_encodings()
    ensures { (t : Tag) (i : ℕ) (c x : List ℕ) → identifier t ≡ i ∷ [] → length c < 2 ^ 24
        → front_of (tlv t c ++ x) ≡ Some (i, c, x) }
{}

/// Returns the contents octets after a first length octet, and the octets after them.
fn after_length<'a>(first: u8, octets: &'a [u8]) -> Option<(&'a [u8], &'a [u8])>
    ensures value { seen_split result ≡ after_length first octets.now }
    ensures shorter { IfSome result (λ found. length found.1.now ≤ length octets.now) }
{
    match (first, octets) {
        (0x81, [x, rest @ ..]) => split_at(*x as usize, rest),
        (0x82, [x, y, rest @ ..]) => split_at(*x as usize * 0x100 + *y as usize, rest),
        (0x83, [x, y, z, rest @ ..]) => {
            split_at(
                (*x as usize * 0x100 + *y as usize) * 0x100 + *z as usize,
                rest,
            )
        }
        _ if first < 0x80 => split_at(first as usize, octets),
        _ => None,
    }
}

/// Returns this number of octets, and the octets after them.
fn split_at<'a>(count: usize, octets: &'a [u8]) -> Option<(&'a [u8], &'a [u8])>
    ensures value { seen_split result ≡ split_at count octets.now }
    ensures shorter { IfSome result (λ found. length found.1.now ≤ length octets.now) }
{
    if count <= octets.len() {
        Some((&octets[..count], &octets[count..]))
    } else {
        None
    }
}

/// A test of an encoding among others.
pub(crate) trait ElementTest {
    ghost use Rattle.der_verify.specs.Elements.{Test};

    ghost passes: { Self → Test };

    /// Returns whether an encoding passes: the first octet of its identifier, its contents
    /// octets, and the octets after it.
    fn passes(&self, identifier: u8, contents: &[u8], others: &[u8]) -> bool
        ensures { result ≡ Self.passes self.now identifier contents.now others.now };
}

/// Returns whether one of the encodings passes a test, up to octets that begin with none.
pub(crate) fn one_is<P: ElementTest>(octets: &[u8], test: &P) -> bool
    ensures { result ≡ one_is (P.passes test.now) octets.now }
{
    let mut left = octets;
    'each: while let Some((identifier, contents, others)) = front(left) {
        if test.passes(identifier, contents, others) {
            return true;
        }
        left = others;
    }
    false
}

/// The test that an encoding has this identifier.
#[derive(Drop)]
struct HasIdentifier(u8);

impl ElementTest for HasIdentifier {
    ghost use Rattle.std.specs.Prelude.{◌==◌};

    ghost passes = { λ p i contents others. i == p.0 };

    fn passes(&self, identifier: u8, _contents: &[u8], _others: &[u8]) -> bool {
        identifier == self.0
    }
}

/// Returns whether one of the encodings has this identifier.
pub(crate) fn has_identifier(octets: &[u8], identifier: u8) -> bool
    ensures { result ≡ has_identifier identifier octets.now }
{
    one_is(octets, &HasIdentifier(identifier))
}

/// Returns the contents octets of the encoding at the front, if it has this identifier, and else
/// none.
pub(crate) fn within(identifier: u8, octets: &[u8]) -> &[u8]
    ensures { result.now ≡ within identifier octets.now }
{
    match front(octets) {
        Some((found, contents, _)) if found == identifier => contents,
        _ => &[],
    }
}

/// A test of the contents octets of an encoding.
pub(crate) trait ContentsTest {
    ghost use Rattle.std.specs.Prelude.{ℕ, List, Bool};

    ghost holds: { Self → List ℕ → Bool };

    /// Returns whether contents octets pass.
    fn holds(&self, contents: &[u8]) -> bool
        ensures { result ≡ Self.holds self.now contents.now };
}

/// The test that the contents octets of an encoding pass.
#[derive(Drop)]
struct Inner<'t, P> {
    test: &'t P,
}

impl<'t, P: ContentsTest> ElementTest for Inner<'t, P> {
    ghost use Rattle.der_verify.specs.Elements.{inner};

    ghost passes = { λ p. inner (P.holds p.test.now) };

    fn passes(&self, _identifier: u8, contents: &[u8], _others: &[u8]) -> bool {
        self.test.holds(contents)
    }
}

/// The test that one of the encodings within an encoding passes.
#[derive(Drop)]
struct Outer<'t, P> {
    test: &'t P,
}

impl<'t, P: ContentsTest> ElementTest for Outer<'t, P> {
    ghost use Rattle.der_verify.specs.Elements.{outer};

    ghost passes = { λ p. outer (P.holds p.test.now) };

    fn passes(&self, _identifier: u8, contents: &[u8], _others: &[u8]) -> bool {
        let test = Inner { test: self.test };
        one_is(contents, &test)
    }
}

/// Returns whether the contents octets of one of the encodings within one of the encodings pass:
/// an attribute in a part of a name, or a subtree in a field of NameConstraints.
pub(crate) fn one_within<P: ContentsTest>(octets: &[u8], test: &P) -> bool
    ensures { result ≡ one_within (P.holds test.now) octets.now }
{
    one_is(octets, &Outer { test })
}

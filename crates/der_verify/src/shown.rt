//! Tests of the values that the items of a list show, such as the attributes of a part of a name.

ghost use Rattle.std.specs.Prelude.{◌≡◌, List, false};
ghost use Rattle.std.specs.Cmp.Lexicographic.{pointwise};
ghost use Rattle.std.specs.List.{list_all, list_any};
ghost use Rattle.der_verify.specs.Shown.{ShownToCome};

use der_elem::{Choice, Decode, Form};
use der_lists::ItemIter;
use der_pkix::certificate::Extension;
use der_pkix::crl::RevokedCertificate;
use der_pkix::name::AttributeTypeAndValue;
use der_tlv::SliceReader;

/// The meaning of a type, by a name that invariants can cite.
pub(crate) trait Meant<T> {
    ghost use Rattle.der_elem.specs.declared.form.Form as form;

    ghost FORM: { form.Ghosts T };
}

/// The meanings of the types whose items are read again.
struct Meanings;

impl<'a> Meant<Extension<'a>> for Meanings {
    ghost FORM = { ⟦<Extension<'a> as Form>⟧ };
}

impl<'a> Meant<AttributeTypeAndValue<'a>> for Meanings {
    ghost FORM = { ⟦<AttributeTypeAndValue<'a> as Form>⟧ };
}

impl<'a> Meant<RevokedCertificate<'a>> for Meanings {
    ghost FORM = { ⟦<RevokedCertificate<'a> as Form>⟧ };
}

/// A test of the value that an item shows: items with the same encoding show the same value.
pub(crate) trait ShownTest<T: Form> {
    ghost use Rattle.std.specs.Prelude.{Bool};

    // the value that is tested
    ghost Shown: { Type 0 };

    // the values that an item shows
    ghost shows: { Self → T → Shown → Type 0 };

    ghost passes: { Self → Shown → Bool };

    /// Returns whether the value that an item shows passes.
    fn passes(&self, item: &T) -> bool
        ensures { (shown : Self.Shown) → Self.shows self.now item.now shown
            → result ≡ Self.passes self.now shown };

    ghost respects: { (p : Self) (v w : T) (shown : Self.Shown) → T.Form.encoding v ≡ T.Form.encoding w
        → Self.shows p v shown → Self.shows p w shown };
}

/// Returns whether one of the items that are left passes a test.
pub(crate) fn one_passes<'a, T: Decode<'a, SliceReader<'a>> + Choice, P: ShownTest<T>>(
    items: ItemIter<'a, T>,
    test: &P,
) -> bool
    ensures { T.Form.TAKES_MEMORY ≡ false → (shown : List P.Shown)
        → ShownToCome T.Form (P.shows test.now) items.entry shown
        → result ≡ list_any (P.passes test.now) shown }
{
    let mut left = items;
    'each: while let Some(item) = left.next() {
        let Ok(item) = item else {
            return false;
        };
        if test.passes(&item) {
            return true;
        }
    }
    false
}

/// Returns whether each of the items that are left passes a test.
pub(crate) fn all_pass<'a, T: Decode<'a, SliceReader<'a>> + Choice, P: ShownTest<T>>(
    items: ItemIter<'a, T>,
    test: &P,
) -> bool
    ensures { T.Form.TAKES_MEMORY ≡ false → (shown : List P.Shown)
        → ShownToCome T.Form (P.shows test.now) items.entry shown
        → result ≡ list_all (P.passes test.now) shown }
{
    let mut left = items;
    'each: while let Some(item) = left.next() {
        let Ok(item) = item else {
            return false;
        };
        if !test.passes(&item) {
            return false;
        }
    }
    true
}

/// A test of the values that two items show.
pub(crate) trait PairTest<T: Form> {
    ghost use Rattle.std.specs.Prelude.{Bool};

    // the value that is tested
    ghost Shown: { Type 0 };

    // the values that an item shows
    ghost shows: { Self → T → Shown → Type 0 };

    ghost passes: { Self → Shown → Shown → Bool };

    /// Returns whether the values that two items show pass.
    fn passes(&self, item: &T, other: &T) -> bool
        ensures { (x y : Self.Shown) → Self.shows self.now item.now x → Self.shows self.now other.now y
            → result ≡ Self.passes self.now x y };

    ghost respects: { (p : Self) (v w : T) (shown : Self.Shown) → T.Form.encoding v ≡ T.Form.encoding w
        → Self.shows p v shown → Self.shows p w shown };
}

/// Returns whether two lists have the same number of items left, and each pair at the same index
/// passes a test.
pub(crate) fn pairs_pass<'a, T: Decode<'a, SliceReader<'a>> + Choice, P: PairTest<T>>(
    first: ItemIter<'a, T>,
    second: ItemIter<'a, T>,
    test: &P,
) -> bool
    ensures { T.Form.TAKES_MEMORY ≡ false → (xs ys : List P.Shown)
        → ShownToCome T.Form (P.shows test.now) first.entry xs
        → ShownToCome T.Form (P.shows test.now) second.entry ys
        → result ≡ pointwise (P.passes test.now) xs ys }
{
    let mut left = first;
    let mut right = second;
    'each: while let Some(item) = left.next() {
        let Ok(item) = item else {
            return false;
        };
        let Some(other) = right.next() else {
            return false;
        };
        let Ok(other) = other else {
            return false;
        };
        if !test.passes(&item, &other) {
            return false;
        }
    }
    match right.next() {
        Some(_other) => false,
        None => true,
    }
}

//! Laws of tagged values.

ghost use Rattle.std.specs.Prelude.{◌≡◌, [], ◌∷◌, true};
ghost use Rattle.std.specs.Ordering.{ordering_then, nat_cmp};
ghost use Rattle.der_tlv.specs.TagParts.{class_of, is_constructed, number_of};
ghost use Rattle.der_tlv.specs.declared.tag.class.Class.TheVariants as classes;
ghost use Rattle.der_tlv.specs.declared.tag.mode.TagMode.TheVariants.{Explicit, Implicit};
ghost use Rattle.der_wrap.specs.ClassTags.{class_of_bits};
ghost use Rattle.der_wrap.specs.TaggedValues.{mode_cmp};

use crate::tagged_value::TaggedValue;
use crate::tagged_value_ref::TaggedValueRef;
use crate::{
    Application, ApplicationRef, ContextSpecific, ContextSpecificRef, Private, PrivateRef,
};
use der_elem::Tagged;
use der_tlv::{Class, Tag};
use std::cmp::Ordering;

/// Compares two tagged values: first their numbers, then explicit before implicit, then their
/// values.
pub fn number_then_mode_then_value<T: Ord, const CLASS: u8>(
    one: &TaggedValue<T, CLASS>,
    other: &TaggedValue<T, CLASS>,
) -> Ordering
    ensures { result ≡ ordering_then (nat_cmp one.now.tag_number.0 other.now.tag_number.0)
        (ordering_then (mode_cmp one.now.tag_mode other.now.tag_mode)
        (T.cmp one.now.value other.now.value)) }
{
    one.cmp(other)
}

/// Compares two borrowed tagged values: first their numbers, then explicit before implicit, then
/// their values.
pub fn borrowed_number_then_mode_then_value<'a, T: Ord, const CLASS: u8>(
    one: &TaggedValueRef<'a, T, CLASS>,
    other: &TaggedValueRef<'a, T, CLASS>,
) -> Ordering
    ensures { result ≡ ordering_then (nat_cmp one.now.tag_number.0 other.now.tag_number.0)
        (ordering_then (mode_cmp one.now.tag_mode other.now.tag_mode)
        (T.cmp one.now.value.now other.now.value.now)) }
{
    one.cmp(other)
}

/// Returns the tag of a tagged value, with its class and its number. It is constructed under
/// explicit tagging, and under implicit tagging if the tag of the value is (X.690 8.14).
#[tactic(auto, using(crate::proofs::OwnTags::class_of_mode, crate::proofs::OwnTags::number_of_mode, crate::proofs::OwnTags::constructed_explicit, crate::proofs::OwnTags::constructed_implicit))]
pub fn class_number_and_form<T: Tagged, const CLASS: u8>(value: &TaggedValue<T, CLASS>) -> Tag
    ensures class { class_of result ≡ class_of_bits CLASS }
    ensures number { number_of result ≡ value.now.tag_number.0 }
    ensures explicit { value.now.tag_mode ≡ Explicit → is_constructed result ≡ true }
    ensures implicit { value.now.tag_mode ≡ Implicit
        → is_constructed result ≡ is_constructed (T.tag_of value.now.value) }
{
    value.tag()
}

/// Returns the tag of a borrowed tagged value, with its class and its number. It is constructed
/// under explicit tagging, and under implicit tagging if the tag of the value is (X.690 8.14).
#[tactic(auto, using(crate::proofs::OwnTags::class_of_mode, crate::proofs::OwnTags::number_of_mode, crate::proofs::OwnTags::constructed_explicit, crate::proofs::OwnTags::constructed_implicit))]
pub fn borrowed_class_number_and_form<'a, T: Tagged, const CLASS: u8>(
    value: &TaggedValueRef<'a, T, CLASS>,
) -> Tag
    ensures class { class_of result ≡ class_of_bits CLASS }
    ensures number { number_of result ≡ value.now.tag_number.0 }
    ensures explicit { value.now.tag_mode ≡ Explicit → is_constructed result ≡ true }
    ensures implicit { value.now.tag_mode ≡ Implicit
        → is_constructed result ≡ is_constructed (T.tag_of value.now.value.now) }
{
    value.tag()
}

/// Returns the classes of the tags of `Application`, `ContextSpecific` and `Private` (X.690
/// 8.1.2.2).
pub fn classes_of_names(
    application: &Application<bool>,
    context_specific: &ContextSpecific<bool>,
    private: &Private<bool>,
) -> [Class; 3]
    ensures { result ≡ classes.Application ∷ classes.ContextSpecific ∷ classes.Private ∷ [] }
{
    [
        class_number_and_form(application).class(),
        class_number_and_form(context_specific).class(),
        class_number_and_form(private).class(),
    ]
}

/// Returns the classes of the tags of `ApplicationRef`, `ContextSpecificRef` and `PrivateRef`.
pub fn borrowed_classes_of_names<'a>(
    application: &ApplicationRef<'a, bool>,
    context_specific: &ContextSpecificRef<'a, bool>,
    private: &PrivateRef<'a, bool>,
) -> [Class; 3]
    ensures { result ≡ classes.Application ∷ classes.ContextSpecific ∷ classes.Private ∷ [] }
{
    [
        borrowed_class_number_and_form(application).class(),
        borrowed_class_number_and_form(context_specific).class(),
        borrowed_class_number_and_form(private).class(),
    ]
}

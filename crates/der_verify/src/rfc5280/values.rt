//! The values of extensions: their octets.

ghost use Rattle.std.specs.Prelude.{◌≡◌, List};
ghost use Rattle.der_lists.specs.Items.{AreItems};
ghost use Rattle.der_lists.specs.ListRef as list_ref;
ghost use Rattle.der_pkix.specs.declared.certificate.extension.Extension.{Extension};
ghost use Rattle.der_pkix.specs.Certificate.TbsCertificate as tbs_fields;
ghost use Rattle.der_pkix.specs.Crl.TbsCertList as list_fields;
ghost use Rattle.der_verify.specs.Extensions.{value_of};
ghost use Rattle.der_verify.specs.Rfc5280.{AreListed};

use crate::extensions::has_identifier;
use der_elem::Form;
use der_lists::ListRef;
use der_pkix::certificate::{Extension, TbsCertificate};
use der_pkix::crl::TbsCertList;
use std::alloc::Global;

/// Returns the octets of the value of the first extension of a certificate with this identifier;
/// none if no extension has it.
pub(crate) fn value_of<'a>(
    alloc: Global,
    certificate: &TbsCertificate<'a>,
    identifier: &[u8],
) -> &'a [u8]
    ensures { (listed : List Extension) → AreListed ⟦<Extension<'a> as Form>⟧ (tbs_fields.extensions certificate.now) listed
        → result.now ≡ value_of identifier.now listed }
{
    match certificate.extensions() {
        Some(extensions) => value_in(alloc, extensions.items(), identifier),
        None => &[],
    }
}

/// Returns the octets of the value of the first extension of a list with this identifier; none if
/// no extension has it.
pub(crate) fn value_of_list<'a>(
    alloc: Global,
    list: &TbsCertList<'a>,
    identifier: &[u8],
) -> &'a [u8]
    ensures { (listed : List Extension) → AreListed ⟦<Extension<'a> as Form>⟧ (list_fields.crl_extensions list.now) listed
        → result.now ≡ value_of identifier.now listed }
{
    match list.crl_extensions() {
        Some(extensions) => value_in(alloc, extensions.items(), identifier),
        None => &[],
    }
}

/// Returns the octets of the value of the first of these extensions with this identifier; none if
/// no extension has it.
pub(crate) fn value_in<'a>(
    alloc: Global,
    extensions: &ListRef<'a, Extension<'a>>,
    identifier: &[u8],
) -> &'a [u8]
    ensures { (items : List Extension) → AreItems ⟦<Extension<'a> as Form>⟧ (list_ref.octets_of extensions.now) items
        → result.now ≡ value_of identifier.now items }
{
    let mut left = extensions.iter(alloc);
    'each: while let Some(item) = left.next() {
        let Ok(extension) = item else {
            return &[];
        };
        if has_identifier(&extension, identifier) {
            return extension.extn_value().as_bytes();
        }
    }
    &[]
}

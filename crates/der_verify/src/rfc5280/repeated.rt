//! Repeated extensions, found by the order of their identifiers: n extensions take about n log n
//! comparisons.

ghost use Rattle.std.specs.Prelude.{◌≡◌, List, IfOk};
ghost use Rattle.der_lists.specs.Items.{AreItems};
ghost use Rattle.der_lists.specs.ListRef as list_ref;
ghost use Rattle.der_pkix.specs.declared.certificate.extension.Extension.{Extension};
ghost use Rattle.der_pkix.specs.Certificate.TbsCertificate as tbs_fields;
ghost use Rattle.der_pkix.specs.Crl.TbsCertList as list_fields;
ghost use Rattle.der_verify.specs.Rfc5280.{has_repeated, AreListed};

use der_elem::Form;
use der_lists::ListRef;
use der_pkix::certificate::{Extension, TbsCertificate};
use der_pkix::crl::TbsCertList;
use std::alloc::{AllocError, Global};
use std::collections::BTreeSet;

/// Returns whether two extensions of a certificate have the same identifier.
pub(crate) fn certificate_repeats<'a>(
    alloc: Global,
    certificate: &TbsCertificate<'a>,
) -> Result<bool, AllocError>
    ensures { (listed : List Extension) → AreListed ⟦<Extension<'a> as Form>⟧ (tbs_fields.extensions certificate.now) listed
        → IfOk result (λ repeats. repeats ≡ has_repeated listed) }
{
    match certificate.extensions() {
        Some(extensions) => one_repeats(alloc, extensions.items()),
        None => Ok(false),
    }
}

/// Returns whether two extensions of a list have the same identifier.
pub(crate) fn list_repeats<'a>(alloc: Global, list: &TbsCertList<'a>) -> Result<bool, AllocError>
    ensures { (listed : List Extension) → AreListed ⟦<Extension<'a> as Form>⟧ (list_fields.crl_extensions list.now) listed
        → IfOk result (λ repeats. repeats ≡ has_repeated listed) }
{
    match list.crl_extensions() {
        Some(extensions) => one_repeats(alloc, extensions.items()),
        None => Ok(false),
    }
}

/// Returns whether two of these extensions have the same identifier.
fn one_repeats<'a>(
    alloc: Global,
    extensions: &ListRef<'a, Extension<'a>>,
) -> Result<bool, AllocError>
    ensures { (items : List Extension) → AreItems ⟦<Extension<'a> as Form>⟧ (list_ref.octets_of extensions.now) items
        → IfOk result (λ repeats. repeats ≡ has_repeated items) }
{
    let mut seen = BTreeSet::new(alloc);
    let mut left = extensions.iter(alloc);
    'each: while let Some(item) = left.next() {
        let Ok(extension) = item else {
            return Err(AllocError);
        };
        if !seen.insert(extension.extn_id().as_bytes())? {
            return Ok(true);
        }
    }
    Ok(false)
}

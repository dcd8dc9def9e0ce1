//! Names of certificates, read into memory.

ghost use Rattle.std.specs.Prelude.{◌≡◌, IfOk};
ghost use Rattle.der_path.specs.Facts.{ShowsParts};

use crate::keep::{Keeper, keep_items};
use crate::names::{Part, PathName, Subtree};
use der_extensions::extension::{GeneralName, GeneralSubtree};
use der_pkix::name::{AttributeTypeAndValue, Name, RelativeDistinguishedName};
use std::alloc::{AllocError, Global};

/// Reads the parts of a name.
pub(crate) fn parts_of<'a>(alloc: Global, name: &Name<'a>) -> Result<Vec<Part<'a>>, AllocError>
    ensures { IfOk result (λ parts. ShowsParts name.now parts.items) }
{
    keep_items::<RelativeDistinguishedName<'a>, KeepPart>(alloc, name.items().as_bytes())
}

/// Keeps the attributes of a part.
pub(crate) struct KeepPart;

impl<'a> Keeper<RelativeDistinguishedName<'a>> for KeepPart {
    ghost use Rattle.der_path.specs.Facts.{ShowsPart};

    type Kept = Part<'a>;

    ghost shows = { ShowsPart };

    fn keep(alloc: Global, item: &RelativeDistinguishedName<'a>) -> Result<Part<'a>, AllocError> {
        let attributes = keep_items::<AttributeTypeAndValue<'a>, KeepAttribute>(
            alloc,
            item.items().as_bytes(),
        )?;
        Ok(Part { attributes })
    }
}

/// Keeps an attribute.
struct KeepAttribute;

impl<'a> Keeper<AttributeTypeAndValue<'a>> for KeepAttribute {
    ghost use Rattle.std.specs.Prelude.{◌≡◌};

    type Kept = AttributeTypeAndValue<'a>;

    ghost shows = { λ v x. x ≡ v };

    fn keep(
        _alloc: Global,
        item: &AttributeTypeAndValue<'a>,
    ) -> Result<AttributeTypeAndValue<'a>, AllocError> {
        Ok(*item)
    }
}

/// Keeps a GeneralName.
pub(crate) struct KeepName;

impl<'a> Keeper<GeneralName<'a>> for KeepName {
    ghost use Rattle.der_path.specs.Facts.{ShowsName};

    type Kept = PathName<'a>;

    ghost shows = { ShowsName };

    fn keep(alloc: Global, item: &GeneralName<'a>) -> Result<PathName<'a>, AllocError> {
        match item {
            GeneralName::OtherName(_) => Ok(PathName::Octets(0, &[])),
            GeneralName::Rfc822Name(text) => Ok(PathName::Octets(1, text.value.as_bytes())),
            GeneralName::DnsName(text) => Ok(PathName::Octets(2, text.value.as_bytes())),
            GeneralName::X400Address(address) => Ok(PathName::Octets(3, address.value.as_bytes())),
            GeneralName::DirectoryName(name) => Ok(PathName::Directory(parts_of(
                alloc,
                &name.fields.first,
            )?)),
            GeneralName::EdiPartyName(name) => Ok(PathName::Octets(5, name.value.as_bytes())),
            GeneralName::UniformResourceIdentifier(text) => Ok(PathName::Octets(
                6,
                text.value.as_bytes(),
            )),
            GeneralName::IpAddress(address) => Ok(PathName::Octets(7, address.value.as_bytes())),
            GeneralName::RegisteredId(identifier) => Ok(PathName::Octets(
                8,
                identifier.value.as_bytes(),
            )),
        }
    }
}

/// Keeps a GeneralSubtree.
pub(crate) struct KeepSubtree;

impl<'a> Keeper<GeneralSubtree<'a>> for KeepSubtree {
    ghost use Rattle.der_path.specs.Facts.{ShowsSubtree};

    type Kept = Subtree<'a>;

    ghost shows = { ShowsSubtree };

    fn keep(alloc: Global, item: &GeneralSubtree<'a>) -> Result<Subtree<'a>, AllocError> {
        let base = KeepName::keep(alloc, item.base())?;
        let is_plain = item.minimum() == 0 && item.maximum().is_none();
        Ok(Subtree { base, is_plain })
    }
}

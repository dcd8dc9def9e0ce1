//! A type with a constraint on its values (X.680 49.8).
//!
//! It has the tag, the octets, the order and the errors of the type that it constrains: 5 as an
//! `INTEGER (0..10)` is encoded as 02 01 05. Octets that are read as any other value return
//! `ErrorKind::Value` (13) with the tag of the type; errors of the type itself come first.

ghost use Rattle.std.specs.Prelude.{◌≡◌, true};
ghost use Rattle.std.specs.Cmp.{on_per, on_equiv};
ghost use Rattle.der_elem.specs.FormatMakers.{mapped_format};
ghost use Rattle.der_modules.specs.Members.{seen_member};
ghost use Rattle.der_constrained.specs.Allowed.{allowed_format};
ghost use Rattle.der_constrained.specs.Constrained.{value_of, KeepsAllowed};

use crate::constraint::Constraint;
use der_elem::{
    ContentsEq, CopyIsDuplicate, DecodeValue, EncodeValue, FormValue, OneTag, TagMarker, ValueOrd,
};
use der_modules::Member;
use der_tlv::{BackWriter, Error, Header, Length, Reader, Source, Writer};
use std::alloc::{AllocError, Global};
use std::cmp::Ordering;
use std::fmt;
use std::marker::PhantomData;
use std::ops::Deref;

/// A value that the constraint `C` allows.
#[derive(Drop)]
pub struct Constrained<T, C> {
    value: T,
    constraint: PhantomData<C>,
}

impl<T: FormValue + OneTag, C: Constraint<T>> Constrained<T, C> {
    /// Keeps a value if the constraint allows it.
    ///
    /// # Errors
    /// `ErrorKind::Value` (13) with the tag of the type for any other value.
    pub fn new(value: T) -> Result<Constrained<T, C>, Error>
        ensures { KeepsAllowed T.Marker.TAG T.value.contents C.allows value result }
    {
        if !C::allows(&value) {
            return Err(Error::from_kind(<<T as OneTag>::Marker as TagMarker>::TAG.value_error()));
        }
        Ok(Constrained {
            value,
            constraint: PhantomData,
        })
    }
}

impl<T, C> Deref for Constrained<T, C> {
    type Target = T;

    ghost deref_gives = { λ constrained value. value ≡ value_of constrained };

    /// Returns the value.
    fn deref(&self) -> &T {
        &self.value
    }
}

impl<T: Clone, C> Clone for Constrained<T, C> {
    ghost is_clone = { λ v w. T.is_clone v.value w.value };

    ghost is_infallible = { λ v. T.is_infallible v.value };

    fn clone(&self) -> Result<Constrained<T, C>, AllocError> {
        let value = self.value.clone()?;
        Ok(Constrained {
            value,
            constraint: PhantomData,
        })
    }
}

impl<T: Copy, C> Copy for Constrained<T, C> {}

impl<T: fmt::Debug, C> fmt::Debug for Constrained<T, C> {
    /// Formats the value as it formats itself.
    fn fmt<W: fmt::Write>(&self, f: &mut fmt::Formatter<W>) -> fmt::Result {
        fmt::Debug::fmt(&self.value, f)
    }
}

impl<T: PartialEq, C> PartialEq for Constrained<T, C> {
    ghost eq = { λ v w. T.eq v.value w.value };

    ghost laws = { on_per (λ v. v.value) T.laws };

    fn eq(&self, other: &Constrained<T, C>) -> bool {
        self.value == other.value
    }
}

impl<T: Eq, C> Eq for Constrained<T, C> {
    ghost laws = { on_equiv (λ v. v.value) T.Eq.laws };
}

impl<T: OneTag, C> OneTag for Constrained<T, C> {
    type Marker = <T as OneTag>::Marker;
}

impl<T: FormValue + OneTag, C: Constraint<T>> FormValue for Constrained<T, C> {
    ghost value = { mapped_format (λ v. v.value) (allowed_format T.Marker.TAG C.allows T.value) };
}

impl<'a, R: Source<'a>, T: DecodeValue<'a, R> + OneTag, C: Constraint<T>> DecodeValue<'a, R>
    for Constrained<T, C> {
    ghost TAKES_MEMORY = { T.DecodeValue.TAKES_MEMORY };

    const TAKES_MEMORY: bool = <T as DecodeValue<'a, R>>::TAKES_MEMORY;

    fn decode_value(
        alloc: Global,
        reader: &mut R,
        header: Header,
    ) -> Result<Constrained<T, C>, Error> {
        let value = T::decode_value(alloc, reader, header)?;
        if !C::allows(&value) {
            return Err(reader.error(<<T as OneTag>::Marker as TagMarker>::TAG.value_error()));
        }
        Ok(Constrained {
            value,
            constraint: PhantomData,
        })
    }

    ghost takes_memory_is = { T.DecodeValue.takes_memory_is };
}

impl<T: EncodeValue + OneTag, C: Constraint<T>> EncodeValue for Constrained<T, C> {
    fn value_len(&self) -> Result<Length, Error> {
        self.value.value_len()
    }

    fn encode_value<W: Writer>(&self, writer: &mut W) -> Result<(), Error> {
        self.value.encode_value(writer)
    }

    fn encode_value_back<W: BackWriter>(&self, writer: &mut W) -> Result<(), Error> {
        self.value.encode_value_back(writer)
    }
}

impl<T: ValueOrd + OneTag, C: Constraint<T>> ValueOrd for Constrained<T, C> {
    fn value_cmp(&self, other: &Constrained<T, C>) -> Result<Ordering, Error> {
        self.value.value_cmp(&other.value)
    }
}

impl<T: ContentsEq + OneTag, C: Constraint<T>> ContentsEq for Constrained<T, C> {
    ghost contents_eq = { λ v w. T.contents_eq v.value w.value };
}

impl<T: Member + OneTag, C> Member for Constrained<T, C> {
    ghost member = { seen_member T.Marker.TAG (λ v. v.value) T.member };
}

impl<T: CopyIsDuplicate + OneTag, C: Constraint<T>> CopyIsDuplicate for Constrained<T, C> {}

//! The contents of a set after several calls, by a law.

ghost use Rattle.std.specs.Prelude.{[], ◌∷◌, ◌++◌, IfOk};
ghost use Rattle.der_asn1_types.specs.Stable.{IsSetOf};

use der_asn1_types::asn1::SetOfVec;
use der_asn1_types::laws::set_of_what_came;
use der_asn1_types::{DerOrd, Error};
use std::alloc::Global;

/// Makes a set of the items of an array, one that is inserted, and one that is added at the end:
/// the only list of these five items in which no encoding is less than the one before it.
pub fn set_of_three_calls<T: DerOrd + Copy>(
    alloc: Global,
    items: [T; 3],
    inserted: T,
    last: T,
) -> Result<SetOfVec<T>, Error>
    ensures { IfOk result (λ set. IsSetOf T.encoding (items ++ inserted ∷ [] ++ last ∷ []) set) }
{
    set_of_what_came::<T>();
    let mut set = SetOfVec::from_array(alloc, items)?;
    set.insert(inserted)?;
    set.insert_ordered(last)?;
    Ok(set)
}

//! Items of lists that are kept in memory.

ghost use Rattle.std.specs.Prelude.{IfOk};
ghost use Rattle.der_verify.specs.Shown.{AreShown};
ghost use Rattle.der_path.specs.Both.{BothAre};

use der_elem::{Choice, Decode, Form};
use der_tlv::{Reader, SliceReader};
use std::alloc::{AllocError, Global};

/// How an item of a list is kept in memory.
pub(crate) trait Keeper<T: Form> {
    ghost use Rattle.std.specs.Prelude.{IfOk};

    /// What is kept.
    type Kept: Drop;

    // what an item shows
    ghost shows: { T → Self.Kept → Type 0 };

    /// Keeps an item.
    fn keep(alloc: Global, item: &T) -> Result<Self::Kept, AllocError>
        ensures { IfOk result (λ kept. Self.shows item.now kept) };
}

/// Keeps the items that these octets are.
///
/// # Errors
/// If memory runs out. The octets of a list were read as items before, so reading them again has
/// no other error.
pub(crate) fn keep_items<'a, T: Decode<'a, SliceReader<'a>> + Choice, K: Keeper<T>>(
    alloc: Global,
    octets: &'a [u8],
) -> Result<Vec<K::Kept>, AllocError>
    ensures { IfOk result (λ kept. AreShown T.Form K.shows octets.now kept.items) }
{
    let Ok(mut reader) = SliceReader::new(octets) else {
        return Err(AllocError);
    };
    let mut kept = Vec::new(alloc);
    'items: while !reader.is_finished() {
        let Ok(item) = T::decode(alloc, &mut reader) else {
            return Err(AllocError);
        };
        kept.push(K::keep(alloc, &item)?)?;
    }
    Ok(kept)
}

/// Returns two values, or the error of one.
pub(crate) fn both<A: Drop, B: Drop, E: Drop>(
    first: Result<A, E>,
    second: Result<B, E>,
) -> Result<(A, B), E>
    ensures { BothAre first second result }
{
    match first {
        Ok(a) => match second {
            Ok(b) => Ok((a, b)),
            Err(error) => Err(error),
        },
        Err(error) => Err(error),
    }
}

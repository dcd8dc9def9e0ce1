//! The items of lists and arrays, whose encodings follow one another (X.690 8.10).

ghost use Rattle.std.specs.Prelude.{◌≡◌, flat_map, IfOk, IfErr};
ghost use Rattle.std.specs.List.{list_any};
ghost use Rattle.der_tlv.specs.declared.error.ErrorKind.TheVariants.{Memory};
ghost use Rattle.der_elem.specs.Encoding.{Encodes, Measures};
ghost use Rattle.der_elem.specs.EncodingBack.{HasRoom, PutsBack};
ghost use Rattle.der_elem.specs.ComparingItems.{ComparesItems};
ghost use Rattle.der_elem.specs.Items.{AreCopies};

use crate::duplicate::Duplicate;
use crate::encode::Encode;
use crate::ord::DerOrd;
use crate::tag::Tagged;
use der_tlv::{BackWriter, Error, ErrorKind, Length, Writer};
use std::alloc::Global;
use std::cmp::Ordering;

/// Returns the number of octets of the encodings of the items.
///
/// # Errors
/// `ErrorKind::Overflow` (9) if there are more than 4294967295; `ErrorKind::Memory` (1) if an
/// item reads its items again and memory runs out.
pub fn items_len<T: Encode>(items: &[T]) -> Result<Length, Error>
    ensures { Measures (flat_map T.encoding items.now) (list_any T.re_reads items.now) result }
{
    let mut len = Length::ZERO;
    'items: for item in items {
        len = len.add(item.encoded_len()?)?;
    }
    Ok(len)
}

/// Writes the encodings of the items, in their order.
///
/// # Errors
/// The errors of the writer; `ErrorKind::Overflow` (9) if an item has more than
/// 4294967295 octets; `ErrorKind::Memory` (1) if an item reads its items again and memory runs
/// out.
pub fn encode_items<T: Encode, W: Writer>(items: &[T], writer: &mut W) -> Result<(), Error>
    ensures { Encodes (flat_map T.encoding items.now) (list_any T.re_reads items.now)
        (W.state writer.old) (W.state writer.new) result }
{
    'items: for item in items {
        item.encode(writer)?;
    }
    Ok(())
}

/// Writes the encodings of the items before what the writer holds, from the last item.
///
/// # Errors
/// `ErrorKind::Memory` (1) if an item reads its items again and memory runs out.
pub fn encode_items_back<T: Encode, W: BackWriter>(items: &[T], writer: &mut W) -> Result<(), Error>
    requires { HasRoom (flat_map T.encoding items.now) (W.state writer.old) }
    ensures { PutsBack (flat_map T.encoding items.now) (list_any T.re_reads items.now)
        (W.state writer.old) (W.state writer.new) result }
{
    let mut left = items.len();
    'items: while left > 0 {
        left -= 1;
        items[left].encode_back(writer)?;
    }
    Ok(())
}

/// Compares the joined encodings lexicographically: the first pair of items that differs decides,
/// else the number of items.
///
/// # Errors
/// As the comparison of the items.
pub fn cmp_items<T: DerOrd + Tagged>(items: &[T], others: &[T]) -> Result<Ordering, Error>
    ensures { ComparesItems T.Form items.now others.now result }
{
    let shorter = items.len().min(others.len());
    'items: for i in 0..shorter {
        match items[i].der_cmp(&others[i])? {
            Ordering::Equal => {}
            order => return Ok(order),
        }
    }
    Ok(items.len().cmp(&others.len()))
}

/// Copies the items.
///
/// # Errors
/// `ErrorKind::Memory` (1) if memory runs out.
pub(crate) fn duplicate_items<T: Duplicate>(alloc: Global, items: &[T]) -> Result<Vec<T>, Error>
    ensures ok { IfOk result (λ copies. AreCopies T.is_copy items.now copies.items) }
    ensures kind { IfErr result (λ e. e.kind ≡ Memory) }
{
    let mut copies = Vec::new(alloc);
    'items: for item in items {
        if copies.push(item.duplicate()?).is_err() {
            return Err(Error::from_kind(ErrorKind::Memory));
        }
    }
    Ok(copies)
}

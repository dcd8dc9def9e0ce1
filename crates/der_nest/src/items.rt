//! Copies of the items of sequences and sets of a fixed capacity.

ghost use Rattle.std.specs.Prelude.{◌≡◌, ◌≤◌, length, true, IfOk, IfErr};
ghost use Rattle.der_elem.specs.Items.{AreCopies};
ghost use Rattle.der_tlv.specs.declared.error.ErrorKind.TheVariants.{Memory};

use arrayvec::ArrayVec;
use der_elem::Duplicate;
use der_tlv::Error;

/// Copies the items.
///
/// # Errors
/// `ErrorKind::Memory` (1) if copying an item takes memory, and memory runs out.
pub(crate) fn duplicate_items<T: Duplicate + Default, const N: usize>(
    items: &[T],
) -> Result<ArrayVec<T, N>, Error>
    requires { length items.now ≤ N }
    ensures ok { IfOk result (λ copies. AreCopies T.is_copy items.now copies.items) }
    ensures kind { IfErr result (λ e. e.kind ≡ Memory) }
    ensures memory { IfErr result (λ e. T.takes_memory_to_copy ≡ true) }
{
    let mut copies = ArrayVec::new();
    'items: for item in items {
        copies.push(item.duplicate()?);
    }
    Ok(copies)
}

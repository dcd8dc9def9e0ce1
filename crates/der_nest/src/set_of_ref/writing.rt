//! Items that are read again to be measured and written.

ghost use Rattle.std.specs.List.{concat};
ghost use Rattle.der_tlv.specs.declared.encoding_rules.EncodingRules.TheVariants.{Der};
ghost use Rattle.der_elem.specs.Encoding.{Encodes, Measures};
ghost use Rattle.der_nest.specs.ReReading.{encodings_read};

use crate::set_of_ref::checked_octets::CheckedOctets;
use der_elem::{Decode, Encode};
use der_tlv::{Error, Length, SliceReader, Writer};

impl<'a, T: Decode<'a, SliceReader<'a>> + Encode> CheckedOctets<'a, T> {
    /// Returns the number of octets of the encodings of the items.
    ///
    /// # Errors
    /// `ErrorKind::Overflow` (9) if there are more than 4294967295; `ErrorKind::Memory` (1) if an
    /// item takes memory and none is left.
    pub(crate) fn items_len(&self) -> Result<Length, Error>
        ensures { Measures (concat (encodings_read self.now.count T.parse Der 0
            self.now.octets.now)) T.Form.TAKES_MEMORY result }
    {
        let mut items = self.items();
        let mut len = Length::ZERO;
        'items: while let Some(item) = items.next() {
            len = len.add(item?.encoded_len()?)?;
        }
        Ok(len)
    }

    /// Writes the encodings of the items in order.
    ///
    /// # Errors
    /// The error of the writer; `ErrorKind::Memory` (1) if an item takes memory and none is left.
    pub(crate) fn encode_items<W: Writer>(&self, writer: &mut W) -> Result<(), Error>
        ensures { Encodes (concat (encodings_read self.now.count T.parse Der 0 self.now.octets.now))
            T.Form.TAKES_MEMORY (W.state writer.old) (W.state writer.new) result }
    {
        let mut items = self.items();
        'items: while let Some(item) = items.next() {
            item?.encode(writer)?;
        }
        Ok(())
    }
}

//! Laws of headers, stated as the contracts of functions that do nothing.

ghost use Rattle.der_tlv.specs.HeadLaws.{HeadersAreUnique, HeadersReadBack};

/// States that no header is a prefix of another.
pub fn headers_are_unique()
    ensures { HeadersAreUnique }
{}

/// States that reading the octets of a header gives that header, whatever follows them.
pub fn headers_read_back()
    ensures { HeadersReadBack }
{}

//! The types of ASN.1 values.

pub use der_ascii::{
    Ia5String, Ia5StringRef, PrintableString, PrintableStringRef, TeletexString, TeletexStringRef,
    VideotexStringRef,
};
pub use der_bits::{
    AllowedLenBitString, AsBitStringRef, BitString, BitStringIter, BitStringRef, NamedBitsRef,
};
pub use der_nest::{
    ByEncoding, ItemProbe, ItemSet, Kept, NonEmpty, Probe, SequenceOf, SequenceOfIter,
    SequenceOfRef, SequenceOfRefIter, SequenceRef, SetOf, SetOfIter, SetOfRef, SetOfRefIter,
    SetOfVec, Values, insertion_place,
};
pub use der_numbers::{AsIntRef, AsUintRef, Enumerated, Enumeration, Int, IntRef, Uint, UintRef};
pub use der_opaque::{
    Any, AnyRef, Null, ObjectIdentifier, ObjectIdentifierRef, OctetString, OctetStringRef,
};
pub use der_text::{BmpChars, BmpCodepoints, BmpString, GeneralStringRef, Utf8StringRef};
pub use der_time::{GeneralizedTime, UtcTime};
pub use der_wrap::{
    Application, ApplicationRef, ContextSpecific, ContextSpecificRef, Private, PrivateRef,
};

//! The contents of CMS messages as text, by their types.

use crate::authenticated_data::push_authenticated_data;
use crate::digested_data::push_digested_data;
use crate::encrypted_data::push_encrypted_data;
use crate::enveloped_data::push_enveloped_data;
use crate::signed_data::push_signed_data;
use certview_parts::field_name::FieldName;
use certview_parts::place::Place;
use certview_parts::printer::Printer;
use certview_parts::rows::push_length_row;
use der_cms::cms::constants as cms;
use der_enveloped::authenticated::constants as authenticated;
use der_enveloped::enveloped::constants as enveloped;
use std::alloc::AllocError;

/// Data (RFC 5652 section 4).
const ID_DATA: &[u8] = &cms::ID_DATA;

/// Signed data (RFC 5652 section 5.1).
const ID_SIGNED_DATA: &[u8] = &cms::ID_SIGNED_DATA;

/// Enveloped data (RFC 5652 section 6.1).
const ID_ENVELOPED_DATA: &[u8] = &enveloped::ID_ENVELOPED_DATA;

/// Digested data (RFC 5652 section 7).
const ID_DIGESTED_DATA: &[u8] = &cms::ID_DIGESTED_DATA;

/// Encrypted data (RFC 5652 section 8).
const ID_ENCRYPTED_DATA: &[u8] = &cms::ID_ENCRYPTED_DATA;

/// Authenticated data (RFC 5652 section 9.1).
const ID_CT_AUTH_DATA: &[u8] = &authenticated::ID_CT_AUTH_DATA;

/// Adds the lines of a content of the type with this identifier. For data, and for an unknown
/// type, it adds the number of octets.
pub fn push_content(
    printer: &mut Printer<'_>,
    place: &Place,
    identifier: &[u8],
) -> Result<(), AllocError> {
    match identifier {
        ID_DATA => {
            let data = printer.contents_at(place).octets;
            push_length_row(printer, place, FieldName::Content, data)
        }
        ID_SIGNED_DATA => push_signed_data(printer, place),
        ID_ENVELOPED_DATA => push_enveloped_data(printer, place),
        ID_DIGESTED_DATA => push_digested_data(printer, place),
        ID_ENCRYPTED_DATA => push_encrypted_data(printer, place),
        ID_CT_AUTH_DATA => push_authenticated_data(printer, place),
        _ => {
            let octets = printer.octets_at(place);
            push_length_row(printer, place, FieldName::Content, octets)
        }
    }
}

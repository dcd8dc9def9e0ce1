//! The laws of the layer, as contracts of functions that do nothing: a proof that calls one may
//! use what it states.

pub use der_ascii::laws::universal_tags as character_string_tags;
pub use der_bits::laws::{equal_bits, max_unused_bits, universal_tags as bit_string_tags};
pub use der_elem::laws::{
    copies_are_equal, encodings_read_back, equal_encodings, faults_are_of_octets,
    fields_are_distinguished, first_field_decides, first_pair_decides, integers_are_fewest,
    no_encoding_begins_another, no_octets_read_begin_others, one_value_is_read,
    own_encoding_is_read, padding_is_lexicographic, universal_tags,
};
pub use der_fields::laws::{
    distinct_tags_distinguish_alternatives, distinct_tags_distinguish_fields,
    named_sequence_is_read_back, sequence_is_read_back,
};
pub use der_nest::laws::{
    sequence_gives_its_items, sequences_by_contents, set_is_sorted, set_of_what_came,
    sorted_is_one_list, universal_tags as list_tags,
};
pub use der_numbers::laws::{integers_are_read, naturals_are_read, universal_tags as integer_tags};
pub use der_opaque::laws::{
    borrowed_tag_then_contents, null, tag_then_contents, universal_tags as opaque_tags,
};
pub use der_text::laws::universal_tags as text_tags;
pub use der_time::laws::{
    chronological, days_since_1970, equal_times, from_own_duration, last_time, last_utc_year,
    universal_tags as time_tags, utc_chronological, utc_length,
};
pub use der_tlv::{
    default_mode, default_rules, explicit_before_implicit, greatest_length, headers_are_unique,
    headers_read_back, identifiers_are_short, identifiers_are_unique, identifiers_decide_order,
    identifiers_distinguish_tags, identifiers_read_back, lengths_are_short, lengths_are_unique,
    lengths_read_back,
};
pub use der_wrap::laws::{
    borrowed_class_number_and_form, borrowed_classes_of_names,
    borrowed_number_then_mode_then_value, class_number_and_form, classes_of_names,
    number_then_mode_then_value,
};

//! Examples for users of the layer: each is a task with its own contract, which the prover has
//! accepted. They use `der_asn1_types`, and `der_pkix` to read messages.
#![tactic(auto)]

mod anys;
mod bits;
mod building;
mod certificates;
mod choice_sets;
mod choices;
mod comparing;
mod field_list;
mod fields;
mod headers;
mod history;
mod named_fields;
mod named_numbers;
mod non_empty;
mod reading;
mod sets;
mod sources;
mod tagged;
mod texts;
mod time_stamps;
mod times;
mod writing;

pub use anys::named_curve;
pub use bits::{is_usage, may_sign_certificates};
pub use building::{SelfSigned, extension_request, request_for, self_signed};
pub use certificates::{read_certificate, serial_and_self_issued};
pub use choice_sets::{
    AttributeValues, ByKeyName, KeyName, KeyNames, read_key_names, read_values, with_value,
    write_key_names,
};
pub use choices::{Setting, read_setting};
pub use comparing::is_before;
pub use field_list::{Policy, PolicyList, is_same_policy, read_policy, write_policy};
pub use fields::{PolicyFields, read_policy_fields};
pub use headers::first_header;
pub use history::set_of_three_calls;
pub use named_fields::{
    NamedPolicy, PolicyMembers, is_same_named_policy, read_named_policy, write_named_policy,
};
pub use named_numbers::{ResponseStatus, read_status, write_status};
pub use non_empty::{SomeNumbers, count_of_numbers, read_some_numbers};
pub use reading::{contents_of_string, read_numbers, serial_number};
pub use sets::{attribute_set, with_attribute};
pub use sources::{Watched, read_watched};
pub use tagged::explicit_version;
pub use texts::{common_name, country};
pub use time_stamps::{TstInfo, read_tst_info};
pub use times::is_within;
pub use writing::{number_in, write_numbers};

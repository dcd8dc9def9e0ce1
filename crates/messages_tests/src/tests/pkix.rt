//! Messages that OpenSSL wrote, and what their fields are read as.

mod access;
mod attributes;
mod certificates;
mod choices;
mod comparing;
mod constraints;
mod curves;
mod entry_values;
mod extensions;
mod general_names;
mod key_values;
mod list_values;
mod memory;
mod names;
mod points;
mod policies;
mod private_keys;
mod public_keys;
mod revocation;
mod times;

//! Names of certificates, each beside a constraint (RFC 5280 section 4.2.1.10), or beside a host (RFC 9525
//! section 6.3); and chains.

mod addresses;
mod chains;
mod hosts;
mod texts;

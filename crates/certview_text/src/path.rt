//! The field that contains an error.

use crate::kind::Kind;
use crate::whole::{shape_of, whole_of};
use certview_parts::early::is_early;
use der_asn1_types::{Error, ErrorKind};
use std::fmt;

/// The text before the name of the field.
pub const IN_FIELD: &str = ", in ";

/// A field of a message: its index among the fields of the message, then the index of the field
/// within that field, and so on. The rest of the array has the greatest number. An error of the
/// message as a whole has no indices.
#[derive(Clone, Copy, Debug, PartialEq, Eq)]
pub struct Path {
    kind: Kind,
    steps: [usize; 6],
    /// Whether the field is a time before 1970, which is the error.
    pub is_early: bool,
}

impl Path {
    /// Returns the path of the message as a whole.
    pub fn whole(kind: Kind) -> Path {
        Path {
            kind,
            steps: [usize::MAX; 6],
            is_early: false,
        }
    }
}

/// Returns the path of the innermost field that contains the last octet examined before the
/// error. That octet precedes the error's position; if no alternative of a CHOICE has the tag, it
/// is the tag at the position.
pub fn path_of(octets: &[u8], kind: Kind, error: &Error) -> Path {
    let mut path = match octet_of(error) {
        Some(octet) => path_to(octets, kind, octet),
        None => Path::whole(kind),
    };
    path.is_early = is_early(octets, error);
    path
}

/// Returns the offset of the last octet examined.
fn octet_of(error: &Error) -> Option<usize> {
    let place = error.position?.value() as usize;
    match error.kind {
        ErrorKind::TagUnexpected { expected: None, .. } => Some(place),
        _ => place.checked_sub(1),
    }
}

/// Returns the path of the innermost field that contains an octet.
pub fn path_to(octets: &[u8], kind: Kind, octet: usize) -> Path {
    let mut path = Path::whole(kind);
    let mut site = whole_of(octets, kind);
    for step in &mut path.steps {
        match site.field_with(octets, octet) {
            Some(inner) => {
                *step = inner.step;
                site = inner;
            }
            None => break,
        }
    }
    path
}

impl Path {
    /// Returns the names of the fields, from the outermost to the innermost, padded with empty
    /// names.
    fn names(&self) -> [&'static str; 5] {
        let mut names = [""; 5];
        let mut count = 0;
        let mut shape = shape_of(self.kind);
        for step in &self.steps {
            let Some(field) = shape.field(*step) else {
                break;
            };
            shape = field.shape;
            if !field.name.is_empty() && count < names.len() {
                names[count] = field.name;
                count += 1;
            }
        }
        names
    }
}

/// Returns the text before a name, or nothing for an empty name.
fn before(name: &str, words: &'static str) -> &'static str {
    if name.is_empty() { "" } else { words }
}

impl fmt::Display for Path {
    fn fmt<W: fmt::Write>(&self, f: &mut fmt::Formatter<W>) -> fmt::Result {
        let [first, second, third, fourth, fifth] = self.names();
        write!(
            f,
            "{}{first}{}{second}",
            before(first, IN_FIELD),
            before(second, ".")
        )?;
        write!(
            f,
            "{}{third}{}{fourth}",
            before(third, "."),
            before(fourth, ".")
        )?;
        write!(f, "{}{fifth}", before(fifth, "."))
    }
}

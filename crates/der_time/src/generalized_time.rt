//! GeneralizedTime (X.680 46, X.690 11.7, RFC 5280 4.1.2.5.2).
//!
//! The tag is 18 (hexadecimal). There are 15 contents octets: the year in four digits, then
//! month, day, hour, minutes and seconds in two digits each, then `Z`.

ghost use Rattle.std.specs.Prelude.{◌≡◌, refl, false};
ghost use Rattle.der_tlv.specs.declared.error.ErrorKind.TheVariants as kinds;
ghost use Rattle.der_tlv.specs.declared.tag.Tag.TheVariants as tags;
ghost use Rattle.der_elem.specs.FormatMakers.{format_of_contents};
ghost use Rattle.der_time.specs.TimeReading.{parse_generalized};
ghost use Rattle.der_time.specs.GeneralizedTime.{generalized_time_contents, DecodesGeneralizedTime};
ghost use Rattle.der_time.specs.UnixTime.{unix_seconds, LastsSeconds, IsTimeAfter};
ghost use Rattle.der_time.specs.TimeLaws.{generalized_of, generalized_of_octets};
ghost use Rattle.der_time.specs.TimeOrder.{ord_is_contents_ord, eq_is_contents_eq};
ghost use Rattle.der_opaque.specs.Any as owned_any;
ghost use Rattle.der_opaque.specs.AnyRef as borrowed_any;

use crate::date_time::DateTime;
use der_elem::{
    ContentsEq, CopyIsDuplicate, DecodeValue, EncodeValue, Form, FormValue, GeneralizedTimeTag,
    OneTag, OrdIsValueOrd, Tagged,
};
use der_opaque::{Any, AnyRef};
use der_tlv::{BackWriter, Error, Header, Length, Reader, Source, Tag, Writer};
use std::alloc::Global;
use std::time::Duration;

/// A GeneralizedTime: a second from 1970 to 9999.
///
/// 1991-05-06T23:45:40Z is encoded as 18 0F and the octets of `19910506234540Z`.
///
/// # Errors
/// Decoding fails on 15 octets that end with `Z` and begin with two digits, if the third and
/// fourth octets are not both digits (`ErrorKind::DateTime`, 14). It fails on all other octets
/// that are not those of a valid time (`ErrorKind::Value`, 13).
#[derive(Clone, Copy, Debug, PartialEq, Eq, PartialOrd, Ord)]
pub struct GeneralizedTime {
    /// The time.
    pub date_time: DateTime,
}

impl GeneralizedTime {
    /// Creates a `GeneralizedTime` from a time.
    pub fn from_date_time(date_time: DateTime) -> GeneralizedTime
        ensures { result.date_time ≡ date_time }
    {
        GeneralizedTime { date_time }
    }

    /// Returns this time as a `DateTime`.
    pub fn to_date_time(&self) -> DateTime
        ensures { result ≡ self.now.date_time }
    {
        self.date_time
    }

    /// Returns the time after the whole seconds of this duration since 1970-01-01T00:00:00Z. A
    /// fraction of a second is dropped.
    ///
    /// # Errors
    /// `ErrorKind::Value` (13) for more than 253402300799 seconds, even by less than a second.
    pub fn from_unix_duration(unix_duration: Duration) -> Result<GeneralizedTime, Error>
        ensures { IsTimeAfter
            (λ t. t.date_time) (kinds.Value tags.GeneralizedTime) unix_duration result }
    {
        match DateTime::from_unix_duration(unix_duration) {
            Ok(date_time) => Ok(GeneralizedTime { date_time }),
            Err(_) => Err(Error::from_kind(Tag::GeneralizedTime.value_error())),
        }
    }

    /// Returns the duration since 1970-01-01T00:00:00Z.
    pub fn to_unix_duration(&self) -> Duration
        ensures { LastsSeconds (unix_seconds self.now.date_time) result }
    {
        self.date_time.unix_duration()
    }
}

impl FormValue for GeneralizedTime {
    ghost value = { format_of_contents generalized_time_contents parse_generalized (λ rules v p. generalized_of v.date_time) generalized_of_octets };
}

impl OneTag for GeneralizedTime {
    type Marker = GeneralizedTimeTag;
}

impl<'a, R: Source<'a>> DecodeValue<'a, R> for GeneralizedTime {
    ghost TAKES_MEMORY = { false };

    const TAKES_MEMORY: bool = false;

    fn decode_value(
        _alloc: Global,
        reader: &mut R,
        header: Header,
    ) -> Result<GeneralizedTime, Error> {
        let octets = reader.read_slice(header.length)?;
        match DateTime::of_contents(octets) {
            Ok(date_time) => Ok(GeneralizedTime { date_time }),
            Err(kind) => Err(reader.error(kind)),
        }
    }

    ghost takes_memory_is = { refl };
}

impl EncodeValue for GeneralizedTime {
    #[tactic(auto, using(crate::specs::TimeLaws::length_generalized))]
    fn value_len(&self) -> Result<Length, Error> {
        Ok(Length::new(15))
    }

    fn encode_value<W: Writer>(&self, writer: &mut W) -> Result<(), Error> {
        writer.write(&self.date_time.contents())
    }

    fn encode_value_back<W: BackWriter>(&self, writer: &mut W) -> Result<(), Error> {
        writer.put(&self.date_time.contents());
        Ok(())
    }
}

impl OrdIsValueOrd for GeneralizedTime {
    ghost ord_is_value_ord = { λ v w. ord_is_contents_ord v.date_time w.date_time };
}

impl ContentsEq for GeneralizedTime {
    ghost contents_eq = { λ v w one. eq_is_contents_eq v.date_time w.date_time one };
}

impl CopyIsDuplicate for GeneralizedTime {}

impl From<DateTime> for GeneralizedTime {
    ghost from_gives = { λ t r. r.date_time ≡ t };

    fn from(date_time: DateTime) -> GeneralizedTime {
        GeneralizedTime { date_time }
    }
}

impl From<&DateTime> for GeneralizedTime {
    ghost from_gives = { λ t r. r.date_time ≡ t.now };

    fn from(date_time: &DateTime) -> GeneralizedTime {
        GeneralizedTime {
            date_time: *date_time,
        }
    }
}

impl From<&GeneralizedTime> for GeneralizedTime {
    ghost from_gives = { λ t r. r ≡ t.now };

    fn from(time: &GeneralizedTime) -> GeneralizedTime {
        *time
    }
}

impl From<GeneralizedTime> for DateTime {
    ghost from_gives = { λ t r. r ≡ t.date_time };

    fn from(time: GeneralizedTime) -> DateTime {
        time.date_time
    }
}

impl From<&GeneralizedTime> for DateTime {
    ghost from_gives = { λ t r. r ≡ t.now.date_time };

    fn from(time: &GeneralizedTime) -> DateTime {
        time.date_time
    }
}

impl<'a> TryFrom<AnyRef<'a>> for GeneralizedTime {
    type Error = Error;

    ghost try_from_gives = { λ a r. DecodesGeneralizedTime (borrowed_any.tag_of a)
        (borrowed_any.contents_of a) r };

    /// # Errors
    /// (4) with no expected tag for another tag; (14) or (13) for octets that are not a time.
    fn try_from(any: AnyRef<'a>) -> Result<GeneralizedTime, Error> {
        if !any.tag().equals(Tag::GeneralizedTime) {
            return Err(Error::from_kind(any.tag().unexpected_error(None)));
        }
        match DateTime::of_contents(any.value()) {
            Ok(date_time) => Ok(GeneralizedTime { date_time }),
            Err(kind) => Err(Error::from_kind(kind)),
        }
    }
}

impl<'a> TryFrom<&'a Any> for GeneralizedTime {
    type Error = Error;

    ghost try_from_gives = { λ a r. DecodesGeneralizedTime (owned_any.tag_of a.now)
        (owned_any.contents_of a.now) r };

    /// # Errors
    /// (4) with no expected tag for another tag; (14) or (13) for octets that are not a time.
    fn try_from(any: &'a Any) -> Result<GeneralizedTime, Error> {
        GeneralizedTime::try_from(any.to_ref())
    }
}

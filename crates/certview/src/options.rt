//! The requests on the command line.

use crate::words::name_of_word;
use certview_text::{Asked, FieldName, Form, View};
use clap::error::ErrorKind;
use clap::{Arg, ArgAction, Command, Error};
use der_asn1_types::DateTime;
use std::alloc::{AllocError, Global};

/// The text after the options in the help.
const AFTER: &str = "\
A FILE that is '-', or none, is standard input. It has messages in DER or as PEM text:
certificates, lists of revoked certificates, keys, requests, encrypted keys, OCSP, CMS
and PKCS #7, time stamps, PKCS #12, and parameters of curves, of DSA and of
Diffie-Hellman.

With the word 'lines' alone, it answers lines of standard input, each a message's name,
a space and hex digits.

The status is 0, 1 for what is refused, could be read in part, breaks a rule, is not
valid or has no path, and 2 where a file, the machine or the command line failed.";

/// A file to read.
#[derive(Drop)]
pub struct File<'a> {
    /// The word that names it; `-` for standard input.
    pub word: &'a str,
    /// The name that the output shows.
    pub name: String,
}

/// The request on the command line.
#[derive(Drop)]
pub struct Request<'a> {
    /// The files in their order, or only standard input if none is named.
    pub files: Vec<File<'a>>,
    /// The fields that are shown; all if there is no list.
    pub fields: Option<Vec<FieldName>>,
    /// Whether the document is JSON.
    pub is_json: bool,
    /// The requests about each message besides its fields.
    pub asked: Asked,
    /// The file of trust anchors, if a path to the first certificate is looked for.
    pub anchors: Option<File<'a>>,
}

impl<'a> Request<'a> {
    /// Returns how the input with this number, from 0 on, is shown.
    pub fn view_of<'b>(&'b self, number: usize) -> View<'b> {
        let has_name = self.is_json || self.files.len() > 1;
        let name = match self.files.get(number) {
            Some(file) if has_name => Some(file.name.as_str()),
            _ => None,
        };
        let form = if self.is_json {
            Form::Json(number == 0)
        } else {
            Form::Text
        };
        View {
            name,
            form,
            fields: self.chosen(),
            asked: self.asked,
        }
    }

    fn chosen(&self) -> Option<&[FieldName]> {
        match &self.fields {
            Some(fields) => Some(fields.as_slice()),
            None => None,
        }
    }
}

/// Returns what the words ask for. The first word is the name by which the program was called;
/// `names` are the names of all fields.
///
/// # Errors
/// If the words are no valid options, or if they ask for the help or the version: the text to
/// print.
pub fn request_of<'a>(
    alloc: Global,
    words: &'a [String],
    names: &'a [&'a str],
) -> Result<Request<'a>, Error> {
    let matches = command(alloc, names)?.try_get_matches_from(words)?;
    let is_json = matches.get_flag("json");
    let wants_path = matches.get_flag("path");
    let anchors = anchors_of(
        alloc,
        wants_path,
        is_json,
        matches.get_str("anchors"),
        names,
    )?;
    let files = match matches.get_strs("FILE") {
        Some(given) => files_of(alloc, given)?,
        None => standard_input(alloc)?,
    };
    let fields = match matches.get_strs("fields") {
        Some(given) => Some(fields_of(alloc, given)?),
        None => None,
    };
    let moment = match matches.get_str("at") {
        Some(word) => Some(moment_of(alloc, word, names)?),
        None => None,
    };
    Ok(Request {
        files,
        fields,
        is_json,
        asked: Asked {
            has_rules: matches.get_flag("check"),
            has_fingerprint: matches.get_flag("fingerprint"),
            moment,
        },
        anchors,
    })
}

/// Returns the file of trust anchors: `--path` and `--anchors` stand together, without `--json`.
fn anchors_of<'a>(
    alloc: Global,
    wants_path: bool,
    is_json: bool,
    word: Option<&'a str>,
    names: &[&str],
) -> Result<Option<File<'a>>, Error> {
    match word {
        Some(word) if wants_path && !is_json => {
            let name = name_of_word(alloc, word)?;
            Ok(Some(File { word, name }))
        }
        None if !wants_path => Ok(None),
        _ => Err(command(alloc, names)?.error(
            ErrorKind::MissingRequiredArgument,
            "--path and --anchors FILE are given together, and without --json",
        )?),
    }
}

/// Returns the files that these words name.
fn files_of<'a>(alloc: Global, words: &[&'a str]) -> Result<Vec<File<'a>>, AllocError> {
    let mut files = Vec::new(alloc);
    for word in words {
        let name = name_of_word(alloc, *word)?;
        files.push(File { word: *word, name })?;
    }
    Ok(files)
}

/// Returns standard input as the only file.
fn standard_input<'a>(alloc: Global) -> Result<Vec<File<'a>>, AllocError> {
    let mut files = Vec::new(alloc);
    let name = String::from_str(alloc, "-")?;
    files.push(File { word: "-", name })?;
    Ok(files)
}

/// Returns the fields with these names. A name of no field has already been refused as an option.
fn fields_of(alloc: Global, names: &[&str]) -> Result<Vec<FieldName>, AllocError> {
    let mut fields = Vec::new(alloc);
    for name in names {
        if let Some(field) = FieldName::with_name(*name) {
            fields.push(field)?;
        }
    }
    Ok(fields)
}

/// Parses a moment: a day, which stands for its first second, or a time of RFC 3339 with the
/// letter Z.
fn moment_of(alloc: Global, word: &str, names: &[&str]) -> Result<DateTime, Error> {
    let mut text = String::from_str(alloc, word)?;
    if word.len() == DAY.len() {
        text.push_str("T00:00:00Z")?;
    }
    match text.as_str().parse::<DateTime>() {
        Ok(moment) => Ok(moment),
        Err(_) => {
            let message = format!(in alloc;
                "'{word}' is no time: --at takes YYYY-MM-DD or YYYY-MM-DDTHH:MM:SSZ, from 1970 on"
            )?;
            Err(command(alloc, names)?.error(ErrorKind::ValueValidation, message.as_str())?)
        }
    }
}

/// The form of a day.
const DAY: &str = "YYYY-MM-DD";

fn flag<'a>(alloc: Global, name: &'a str, help: &'a str) -> Arg<'a> {
    Arg::new(alloc, name)
        .long(name)
        .help(help)
        .action(ArgAction::SetTrue)
}

/// Returns the description of the options; `--fields` takes these names.
fn command<'a>(alloc: Global, names: &'a [&'a str]) -> Result<Command<'a>, Error> {
    let files = Arg::new(alloc, "FILE")
        .help("What to read")
        .action(ArgAction::Append)
        .num_args(0..);
    let fields = Arg::new(alloc, "fields")
        .long("fields")
        .value_name("NAME,..")
        .help(
            "Shows only the fields with these names, as subject,not-after; a name of no field is answered with all names",
        )
        .action(ArgAction::Append)
        .value_delimiter(',')
        .value_parser(names)
        .hide_possible_values(true);
    let moment = Arg::new(alloc, "at").long("at").value_name("TIME").help(
        "Says whether each certificate is valid, and each list current, at that day or moment",
    );
    let anchors = Arg::new(alloc, "anchors")
        .long("anchors")
        .value_name("FILE")
        .help("The certificates of the trust anchors of --path");
    let path = "Shows the path from a trust anchor to the first certificate among all of them";
    let json = "Writes one document of JSON, by docs/certview.schema.json";
    let check = "Says what each certificate or list breaks of RFC 5280 beyond the grammar";
    let fingerprint = "Shows the SHA-256 of each message but private keys";
    let command = Command::new(alloc, "certview")
        .version("0.1.0")
        .about("Shows certificates, lists of revoked certificates, keys and other messages")
        .after_help(AFTER)
        .arg(flag(alloc, "json", json))?
        .arg(fields)?
        .arg(flag(alloc, "check", check))?
        .arg(moment)?
        .arg(flag(alloc, "fingerprint", fingerprint))?
        .arg(flag(alloc, "path", path))?
        .arg(anchors)?
        .arg(files)?;
    Ok(command)
}

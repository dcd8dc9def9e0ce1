//! The way from the input to the output.

ghost use Rattle.std.specs.Prelude.{◌≡◌, ◌≢◌, OnOk, IfOk, IfErr, IfSome};
ghost use Rattle.std.specs.Io.KnownBytes.{Keeps};
ghost use Rattle.certview_text.specs.Shown.{IsShown};

use crate::blocks::{push_blocks, push_first_parts, push_octets, push_refused};
use crate::fault::Fault;
use crate::kind::{begins_message, kind_of};
use crate::pem::is_text;
use crate::readable::push_parts;
use certview_parts::asked::Asked;
use certview_parts::characters::push_plain;
use certview_parts::field_name::FieldName;
use certview_parts::form::{Form, Writer};
use certview_parts::page::{ItemKind, Page};
use std::alloc::{AllocError, Global};
use std::io::{self, Read, Write};

/// The options for showing an input.
#[derive(Clone, Copy, Debug, PartialEq, Eq)]
pub struct View<'a> {
    /// The name of the input, which is written before its messages.
    pub name: Option<&'a str>,
    /// The form of the output.
    pub form: Form,
    /// The fields that are shown; all if there is no list.
    pub fields: Option<&'a [FieldName]>,
    /// Further requests about each message.
    pub asked: Asked,
}

/// The result for an input with a message that was shown.
#[derive(Clone, Copy, Debug, PartialEq, Eq)]
pub enum Outcome {
    /// The whole input is shown.
    Whole,
    /// A part could not be read, and a line says so.
    Partial,
    /// The whole input is shown, but a check that was asked for fails, and a line says so.
    Found,
    /// No one reads the output. The status is that of the output that was not read.
    Closed(u8),
}

impl<'a> View<'a> {
    /// Returns the options for all fields of messages without a name, for people.
    pub fn plain() -> View<'a> {
        View {
            name: None,
            form: Form::Text,
            fields: None,
            asked: Asked::nothing(),
        }
    }
}

impl Outcome {
    /// Returns the exit status: 1 if a part could not be read or a check failed, whether or not
    /// the output is read.
    pub fn status(self) -> u8 {
        match self {
            Outcome::Partial | Outcome::Found => 1,
            Outcome::Whole => 0,
            Outcome::Closed(status) => status,
        }
    }

    /// Returns the result for the input on this page.
    fn of(page: &Page) -> Outcome {
        if page.is_partial {
            Outcome::Partial
        } else if page.has_findings {
            Outcome::Found
        } else {
            Outcome::Whole
        }
    }
}

/// Reads the whole input and writes the fields of its messages, as `show` does.
///
/// # Errors
/// `Input` if a read fails; `Memory` if memory runs out; and the errors of `show`.
pub fn run<R: Read, W: Write>(
    alloc: Global,
    view: &View<'_>,
    input: &mut R,
    output: &mut W,
) -> Result<Outcome, Fault>
    // The input is shown only if the grammar of its kind reads exactly these octets, or if it is
    // PEM text.
    ensures read { OnOk result (IfSome (R.remaining input.old) IsShown) }
    // After an error other than `Output`, nothing has been written.
    ensures kept { IfErr result (λ fault. fault ≢ Fault.Output → Keeps (W.contents output.old) (W.contents output.new)) }
{
    let octets = read_input(alloc, input)?;
    show(alloc, view, octets.as_slice(), output)
}

/// Reads a whole input.
///
/// # Errors
/// `Input` if a read fails; `Memory` if memory runs out.
pub fn read_input<R: Read>(alloc: Global, input: &mut R) -> Result<Vec<u8>, Fault>
    ensures { IfOk result (λ octets. IfSome (R.remaining input.old) (λ all. octets.items ≡ all)) }
{
    let mut octets = Vec::new(alloc);
    match input.read_to_end(&mut octets) {
        Ok(_) => Ok(octets),
        Err(error) => Err(read_fault(&error)),
    }
}

/// Writes the fields of the messages in an input. It finds all messages and formats them as text
/// before it writes the first octet.
///
/// # Errors
/// The error of the input; `Output` if a write fails; `Memory` if memory runs out.
pub fn show<W: Write>(
    alloc: Global,
    view: &View<'_>,
    input: &[u8],
    output: &mut W,
) -> Result<Outcome, Fault>
    ensures read { OnOk result (IsShown input.now) }
    ensures kept { IfErr result (λ fault. fault ≢ Fault.Output → Keeps (W.contents output.old) (W.contents output.new)) }
{
    let page = page_of(alloc, view, input)?;
    write_page(alloc, view, &page, output)
}

/// Writes why an input is refused and, below that, its readable fields, each read on its own.
/// Without such a field it writes nothing for people, and only the refusal in JSON.
///
/// # Errors
/// `Output` if a write fails; `Memory` if memory runs out.
pub fn show_refused<W: Write>(
    alloc: Global,
    view: &View<'_>,
    fault: &Fault,
    input: &[u8],
    output: &mut W,
) -> Result<Outcome, Fault>
    ensures { IfErr result (λ fault. fault ≢ Fault.Output → Keeps (W.contents output.old) (W.contents output.new)) }
{
    let mut page = Page::new(alloc);
    page.has_parts = view.form != Form::Text;
    push_remains(alloc, &mut page, view, fault, input)?;
    if view.form == Form::Text && !page.has_message() {
        return Ok(Outcome::Partial);
    }
    write_page(alloc, view, &page, output)
}

/// Returns the page with the items of an input.
fn page_of(alloc: Global, view: &View<'_>, input: &[u8]) -> Result<Page, Fault>
    ensures { OnOk result (IsShown input.now) }
{
    let mut page = Page::asking(alloc, view.asked);
    page.has_parts = view.form != Form::Text;
    push_input(alloc, &mut page, view, input)?;
    Ok(page)
}

/// Writes the items of a page.
fn write_page<W: Write>(
    alloc: Global,
    view: &View<'_>,
    page: &Page,
    output: &mut W,
) -> Result<Outcome, Fault>
    ensures { IfErr result (λ fault. fault ≢ Fault.Output → Keeps (W.contents output.old) (W.contents output.new)) }
{
    let text = text_of(alloc, Writer::new(view.form, view.fields), page)?;
    write_text(output, text.as_str(), Outcome::of(page))
}

/// Returns the text of a whole page.
pub fn text_of(alloc: Global, writer: Writer<'_>, page: &Page) -> Result<String, AllocError> {
    let mut writer = writer;
    let mut text = String::new(alloc);
    writer.add(alloc, &mut text, page)?;
    writer.end(&mut text)?;
    Ok(text)
}

/// Writes a text. A closed pipe is no error: no one reads on.
pub(crate) fn write_text<W: Write>(
    output: &mut W,
    text: &str,
    outcome: Outcome,
) -> Result<Outcome, Fault>
    ensures { IfErr result (λ fault. fault ≡ Fault.Output) }
{
    match output.write_all(text.as_bytes()) {
        Ok(()) => Ok(outcome),
        Err(error) if error.kind() == io::ErrorKind::BrokenPipe => {
            Ok(Outcome::Closed(outcome.status()))
        }
        Err(_) => Err(Fault::Output),
    }
}

fn read_fault(error: &io::Error) -> Fault {
    if error.kind() == io::ErrorKind::OutOfMemory {
        Fault::Memory
    } else {
        Fault::Input
    }
}

/// Adds the items of an input.
fn push_input(alloc: Global, page: &mut Page, view: &View<'_>, input: &[u8]) -> Result<(), Fault>
    ensures { OnOk result (IsShown input.now) }
{
    push_input_name(page, view)?;
    if input.is_empty() {
        return Err(Fault::Empty);
    }
    if is_text(input) {
        return push_blocks(alloc, page, input);
    }
    if !begins_message(input) {
        return Err(Fault::NoMessage);
    }
    let kind = kind_of(input);
    push_octets(alloc, page, kind, input)
}

/// Adds why an input is refused, and its readable fields.
fn push_remains(
    alloc: Global,
    page: &mut Page,
    view: &View<'_>,
    fault: &Fault,
    input: &[u8],
) -> Result<(), Fault> {
    push_input_name(page, view)?;
    push_refused(page, *fault)?;
    match *fault {
        Fault::Refused(_, _) => Ok(push_parts_of(alloc, page, input)?),
        _ => Ok(()),
    }
}

/// Adds the readable fields of a refused input.
fn push_parts_of(alloc: Global, page: &mut Page, input: &[u8]) -> Result<(), AllocError> {
    if is_text(input) {
        push_first_parts(alloc, page, input)
    } else {
        push_parts(alloc, page, kind_of(input), input)
    }
}

/// Begins an input with its name. For people an input may have no name; in JSON each has one.
fn push_input_name(page: &mut Page, view: &View<'_>) -> Result<(), AllocError> {
    match (view.name, view.form) {
        (None, Form::Text) => Ok(()),
        (name, _) => {
            page.begin(ItemKind::Input, "")?;
            push_plain(page, name.unwrap_or("-"))?;
            page.text.push('\n')
        }
    }
}

//! The answer to one line.
ghost use Rattle.std.specs.Prelude.{◌≡◌, ◌≢◌, [], ◌==◌, ◌<◌, ◌+◌, ◌*◌, ◌++◌, None, Some, length, position, OnOk, IfOk, IfSome, option_map, codes, if◌then◌else◌};
ghost use Rattle.hex.specs.Hex.{encode_lower};
ghost use Rattle.der_tlv.specs.declared.error.ErrorKind.TheVariants.{Memory};
ghost use Rattle.der_lines.specs.Answer.{answer_of, NotRefusedForMemory, accepted_of, refused_of, octets_of, parts_of};
ghost use Rattle.der_lines.specs.Lines.{reply_to, with_line_feed};

use crate::kept_writer::KeptWriter;
use crate::names::Names;
use der_tlv::ErrorKind;
use std::alloc::{AllocError, Global};

/// Buffers for the octets of a line and for their encoding, which are kept from one line to the
/// next.
#[derive(Drop)]
pub struct Room {
    octets: Vec<u8>,
    encoding: KeptWriter,
}

impl Room {
    /// Makes empty buffers.
    pub fn new(alloc: Global) -> Room
        ensures { result.octets.items ≡ [] }
    {
        Room {
            octets: Vec::new(alloc),
            encoding: KeptWriter::new(alloc),
        }
    }

    /// Replaces a line by the answer to it and an LF.
    #[tactic(auto, unfolding(crate::specs::Answer::answer_of))]
    pub fn answer<N: Names>(&mut self, alloc: Global, line: &mut Vec<u8>) -> Result<(), AllocError>
        ensures reply { OnOk result (line.new.items ≡ reply_to N.table line.old.items) }
        ensures memory { OnOk result (NotRefusedForMemory N.table line.old.items) }
    {
        let Some((name, text)) = parts(line) else {
            return put_bad_line(line);
        };
        if !read_octets(text, &mut self.octets)? {
            return put_bad_line(line);
        }
        match N::put_canonical_of_name(alloc, name, &self.octets, &mut self.encoding) {
            None => put_bad_line(line),
            Some(Ok(())) => put_accepted(&self.encoding.octets, line),
            Some(Err(error)) => put_refused(alloc, error.kind, line),
        }
    }
}

/// Returns the octets before the first space, and those after it.
fn parts(line: &[u8]) -> Option<(&[u8], &[u8])>
    ensures { option_map (λ p. (p.0.now, p.1.now)) result ≡ parts_of line.now }
{
    match first_space(line) {
        None => None,
        Some(end) => Some((&line[..end], &line[end + 1..])),
    }
}

fn first_space(line: &[u8]) -> Option<usize>
    ensures place { result ≡ position (λ octet. octet == 32) line.now }
    ensures bound { IfSome result (λ end. end < length line.now) }
{
    line.iter().position(|octet| *octet == b' ')
}

/// Reads the octets of hex digits, or no octets for `-`. Returns whether the text has this form.
fn read_octets(text: &[u8], octets: &mut Vec<u8>) -> Result<bool, AllocError>
    ensures { IfOk result (λ is_read.
        octets_of text.now ≡ (if is_read then Some octets.new.items else None)) }
{
    if text == b"-".as_slice() {
        octets.clear();
        return Ok(true);
    }
    if text.is_empty() || text.len() % 2 != 0 {
        return Ok(false);
    }
    octets.resize(text.len() / 2, 0)?;
    Ok(hex::decode_to_slice(text, octets).is_ok())
}

fn put_bad_line(reply: &mut Vec<u8>) -> Result<(), AllocError>
    ensures { OnOk result (reply.new.items ≡ with_line_feed (codes "bad line")) }
{
    reply.clear();
    reply.extend_from_slice(b"bad line\n")
}

fn put_accepted(encoding: &[u8], reply: &mut Vec<u8>) -> Result<(), AllocError>
    ensures { OnOk result (reply.new.items ≡ with_line_feed (accepted_of encoding.now)) }
{
    if encoding.is_empty() {
        reply.clear();
        return reply.extend_from_slice(b"ok -\n");
    }
    let Some(len) = encoding
        .len()
        .checked_mul(2)
        .and_then(|digits| digits.checked_add(4))
    else {
        return Err(AllocError);
    };
    reply.resize(len, 0)?;
    fill_reply(encoding, reply);
    Ok(())
}

/// Fills a reply of exactly this length with `ok `, the digits of an encoding and an LF.
fn fill_reply(encoding: &[u8], reply: &mut [u8])
    requires { length reply.old ≡ 2 * length encoding.now + 4 }
    ensures { reply.new ≡ with_line_feed (codes "ok " ++ encode_lower encoding.now) }
{
    let end = reply.len() - 1;
    reply[..3].copy_from_slice(b"ok ");
    if hex::encode_to_slice(encoding, &mut reply[3..end]).is_err() {
        unreachable!();
    }
    reply[end] = b'\n';
}

fn put_refused(alloc: Global, kind: ErrorKind, reply: &mut Vec<u8>) -> Result<(), AllocError>
    ensures text { OnOk result (reply.new.items ≡ with_line_feed (refused_of kind)) }
    ensures memory { OnOk result (kind ≢ Memory) }
{
    if kind == ErrorKind::Memory {
        return Err(AllocError);
    }
    let number = kind.number();
    let text = format!(in alloc; "refused {number}\n")?;
    reply.clear();
    reply.extend_from_slice(text.as_bytes())
}

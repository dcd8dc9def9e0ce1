//! Internet mail addresses and their constraints (RFC 5280 section 4.2.1.10): "A name constraint for
//! Internet mail addresses MAY specify a particular mailbox, all addresses at a particular host, or all
//! mailboxes in a domain."

ghost use Rattle.std.specs.Prelude.{◌≡◌, ◌≤◌, length, option_map};
ghost use Rattle.der_path.specs.Mailboxes.{is_mailbox, is_same_mailbox, mailbox_placement, parts_of_mailbox, placement_at_host, placement_at_mailbox, start_of_host};

use crate::domain::{is_domain, is_host_constraint, is_within_host, same_letters};
use crate::placement::Placement;

/// Returns the placement of an rfc822Name in a constraint. `root@mill.example.com` is inside
/// `root@mill.example.com`, `mill.example.com` and `.example.com`, and outside `example.com`.
///
/// The placement is undefined if the name is no mailbox, or if the constraint is no mailbox, no
/// host, and no period before a domain.
pub fn mailbox_placement(constraint: &[u8], name: &[u8]) -> Placement
    ensures { result ≡ mailbox_placement constraint.now name.now }
{
    let Some((local, host)) = parts_of_mailbox(name) else {
        return Placement::Undefined;
    };
    if !is_mailbox(local, host) {
        return Placement::Undefined;
    }
    match parts_of_mailbox(constraint) {
        Some((only, place)) => placement_at_mailbox(only, place, local, host),
        None => placement_at_host(constraint, host),
    }
}

/// Returns the placement of a mailbox in a particular mailbox.
fn placement_at_mailbox(only: &[u8], place: &[u8], local: &[u8], host: &[u8]) -> Placement
    ensures { result ≡ placement_at_mailbox (only.now, place.now) (local.now, host.now) }
{
    if is_mailbox(only, place) {
        Placement::inside_if(only == local && same_letters(place, host))
    } else {
        Placement::Undefined
    }
}

/// Returns the placement of a mailbox at this host in a host, or in a period before a domain.
fn placement_at_host(constraint: &[u8], host: &[u8]) -> Placement
    ensures { result ≡ placement_at_host constraint.now host.now }
{
    if is_host_constraint(constraint) {
        Placement::inside_if(is_within_host(constraint, host))
    } else {
        Placement::Undefined
    }
}

/// Returns whether these are the local part and the host of a mailbox.
fn is_mailbox(local: &[u8], host: &[u8]) -> bool
    ensures { result ≡ is_mailbox (local.now, host.now) }
{
    local.len() != 0 && is_domain(host)
}

/// Returns the octets before the last `@`, and those after it.
fn parts_of_mailbox(octets: &[u8]) -> Option<(&[u8], &[u8])>
    ensures { option_map (λ found. (found.0.now, found.1.now)) result ≡ parts_of_mailbox octets.now }
{
    let start = start_of_host(octets);
    if start > 0 {
        Some((&octets[..start - 1], &octets[start..]))
    } else {
        None
    }
}

/// Returns the number of octets up to and including the last `@`, or 0 if there is none.
fn start_of_host(octets: &[u8]) -> usize
    ensures value { result ≡ start_of_host octets.now }
    ensures bound { result ≤ length octets.now }
{
    let mut start = octets.len();
    'each: while start > 0 {
        if octets[start - 1] == b'@' {
            return start;
        }
        start -= 1;
    }
    start
}

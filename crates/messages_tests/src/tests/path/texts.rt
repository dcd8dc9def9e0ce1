//! Names that are text, beside their constraints. The first rows of each kind are the examples of RFC
//! 5280 section 4.2.1.10.

use crate::tests::same_in;
use der_path::Placement::{Inside, Outside, Undefined};
use der_path::{domain_placement, mailbox_placement, resource_placement};
use std::test::Fail;

#[test]
fn domains_are_placed(rt: HostRuntime) -> Result<(), Fail> {
    // a constraint, a name, and its placement
    let rows = [
        ("host.example.com", "www.host.example.com", Inside),
        ("host.example.com", "host1.example.com", Outside),
        ("host.example.com", "host.example.com", Inside),
        ("host.example.com", "a.b.host.example.com", Inside),
        ("host.example.com", "example.com", Outside),
        ("example.com", "notexample.com", Outside),
        ("example.com", "example.com.org", Outside),
        ("com", "example.com", Inside),
        // letters in either case, and octets beside letters
        ("EXAMPLE.com", "www.Example.COM", Inside),
        ("ex@mple.com", "ex`mple.com", Outside),
        ("az.com", "AZ.com", Inside),
        ("a[.com", "a{.com", Outside),
        // the first label of a name may be a wildcard, which is a label as others are
        ("example.com", "*.example.com", Inside),
        ("a.example.com", "*.example.com", Outside),
        // no labels
        ("", "example.com", Inside),
        ("", "", Undefined),
        ("example.com", "", Undefined),
        // empty labels
        (".example.com", "www.example.com", Undefined),
        ("example.com", ".example.com", Undefined),
        ("example.com", "www..example.com", Undefined),
        ("example.com", "example.com.", Undefined),
        ("example.com.", "example.com", Undefined),
        (".", "example.com", Undefined),
    ];
    for (constraint, name, wanted) in rows {
        let found = domain_placement(constraint.as_bytes(), name.as_bytes());
        same_in(&rt, &(constraint, name), found, wanted);
    }
    Ok(())
}

#[test]
fn mailboxes_are_placed(rt: HostRuntime) -> Result<(), Fail> {
    let rows = [
        ("root@example.com", "root@example.com", Inside),
        ("root@example.com", "mill@example.com", Outside),
        ("root@example.com", "root@host.example.com", Outside),
        ("example.com", "mill@example.com", Inside),
        ("example.com", "mill@host.example.com", Outside),
        (".example.com", "mill@host.example.com", Inside),
        (".example.com", "mill@a.host.example.com", Inside),
        (".example.com", "mill@example.com", Outside),
        (".example.com", "mill@notexample.com", Outside),
        // section 7.5: the local part is compared exactly, the host without case
        ("root@example.com", "Root@example.com", Outside),
        ("root@EXAMPLE.com", "root@example.COM", Inside),
        ("Example.Com", "mill@eXAMPLE.cOM", Inside),
        (".Example.Com", "mill@a.eXAMPLE.cOM", Inside),
        // the host begins behind the last @
        ("example.com", "\"a@b\"@example.com", Inside),
        ("b", "\"a@b\"@example.com", Outside),
        ("\"a@b\"@example.com", "\"a@b\"@example.com", Inside),
        // no mailboxes
        ("example.com", "example.com", Undefined),
        ("example.com", "", Undefined),
        ("example.com", "@example.com", Undefined),
        ("example.com", "mill@", Undefined),
        ("example.com", "mill@example..com", Undefined),
        // no mailbox, host or domain
        ("", "mill@example.com", Undefined),
        (".", "mill@example.com", Undefined),
        ("@example.com", "mill@example.com", Undefined),
        ("root@", "root@example.com", Undefined),
        ("root@.example.com", "root@a.example.com", Undefined),
        ("..example.com", "mill@a.example.com", Undefined),
        ("example.com.", "mill@example.com", Undefined),
    ];
    for (constraint, name, wanted) in rows {
        let found = mailbox_placement(constraint.as_bytes(), name.as_bytes());
        same_in(&rt, &(constraint, name), found, wanted);
    }
    Ok(())
}

#[test]
fn resources_are_placed(rt: HostRuntime) -> Result<(), Fail> {
    let rows = [
        (".example.com", "https://host.example.com", Inside),
        (".example.com", "https://my.host.example.com", Inside),
        (".example.com", "https://example.com", Outside),
        ("host.example.com", "https://host.example.com/", Inside),
        ("host.example.com", "https://my.host.example.com/", Outside),
        // what follows the host
        (
            "host.example.com",
            "ftp://host.example.com?x=//a.b/",
            Inside,
        ),
        (
            "host.example.com",
            "ftp://host.example.com#@a.example.org",
            Inside,
        ),
        (
            "host.example.com",
            "ftp://host.example.com/@a.example.org",
            Inside,
        ),
        ("host.example.com", "ldap://host.example.com:389/a", Inside),
        ("host.example.com", "ldap://host.example.com:/a", Inside),
        // a user before it
        ("host.example.com", "ftp://mill@host.example.com/a", Inside),
        (
            "host.example.com",
            "ftp://a.b:c@host.example.com:21/a",
            Inside,
        ),
        (
            "host.example.com",
            "ftp://host.example.com@a.example.org/",
            Outside,
        ),
        ("Host.Example.Com", "HTTP://hOST.eXAMPLE.cOM", Inside),
        // no authority
        ("host.example.com", "host.example.com", Undefined),
        ("host.example.com", "urn:host.example.com", Undefined),
        ("host.example.com", "http:/host.example.com", Undefined),
        ("host.example.com", "://host.example.com", Undefined),
        ("host.example.com", "1http://host.example.com", Undefined),
        ("host.example.com", "ht/tp://host.example.com", Undefined),
        // no fully qualified domain name
        ("host.example.com", "http://192.0.2.1/", Undefined),
        ("host.example.com", "http://[2001:db8::1]/", Undefined),
        ("host.example.com", "http://host/", Undefined),
        ("host.example.com", "http:///a", Undefined),
        ("host.example.com", "http://host.example.com./", Undefined),
        ("host.example.com", "http://host..example.com/", Undefined),
        ("host.example.com", "http://h%6fst.example.com/", Undefined),
        ("host.example.com", "http://host.example.com:8o/", Undefined),
        (
            "host.example.com",
            "http://a@b@host.example.com/",
            Undefined,
        ),
        // no domain name
        ("", "http://host.example.com/", Undefined),
        (".", "http://host.example.com/", Undefined),
        ("..example.com", "http://host.example.com/", Undefined),
    ];
    for (constraint, uri, wanted) in rows {
        let found = resource_placement(constraint.as_bytes(), uri.as_bytes());
        same_in(&rt, &(constraint, uri), found, wanted);
    }
    Ok(())
}

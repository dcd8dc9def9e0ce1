//! dNSNames of certificates beside hosts.

use crate::tests::same_in;
use der_path::names_host;
use std::test::Fail;

#[test]
fn hosts_are_named(rt: HostRuntime) -> Result<(), Fail> {
    // a dNSName, a host, and whether the one names the other
    let rows = [
        ("www.example.com", "www.example.com", true),
        ("WWW.Example.com", "www.eXample.COM", true),
        ("example", "example", true),
        ("example.com", "www.example.com", false),
        ("www.example.com", "example.com", false),
        ("*.example.com", "www.example.com", true),
        ("*.EXAMPLE.com", "W.example.COM", true),
        ("*.example.com", "xn--bcher-kva.example.com", true),
        ("*.example.com", "example.com", false),
        ("*.example.com", ".example.com", false),
        ("*.example.com", "a.www.example.com", false),
        ("*.example.com", "www.example.org", false),
        ("*.example.com", "wwwexample.com", false),
        ("*.com", "example.com", true),
        ("*", "example", false),
        ("*.", "example.", false),
        ("w*.example.com", "www.example.com", false),
        ("*w.example.com", "www.example.com", false),
        ("www.*.com", "www.example.com", false),
        ("*.*.com", "www.example.com", false),
        ("www.example.com.", "www.example.com", false),
        ("www.example.com", "www.example.com.", false),
        ("", "", false),
        ("", "example", false),
    ];
    for (name, host, wanted) in rows {
        let found = names_host(name.as_bytes(), host.as_bytes());
        same_in(&rt, &(name, host), found, wanted);
    }
    Ok(())
}

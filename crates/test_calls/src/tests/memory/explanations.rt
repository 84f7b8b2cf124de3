//! Calls that say what the error of a text is.

use super::{answered, begin};
use hcl_scan::ScanFault;
use hcl_tree::ParseFault;
use std::alloc::AllocError;

#[test]
fn say_parse_fault(rt: HostRuntime) {
    begin(&rt);
    let fault = ParseFault::Syntax { at: 8 };
    let answer = hcl_explain::say_parse_fault(rt.alloc(), b"b \"c\" {\n", fault);
    let said = answered(&rt, answer, AllocError, true).expect(&rt, "nothing is said");
    assert!(rt; said.at == 6);
    assert!(rt; said.sentence.as_str() == "this `{` of `b \"c\"` is not closed");
}

#[test]
fn say_scan_fault(rt: HostRuntime) {
    begin(&rt);
    let fault = ScanFault::OpenString { at: 8 };
    let answer = hcl_explain::say_scan_fault(rt.alloc(), b"a = \"${b\"\n", fault);
    let said = answered(&rt, answer, AllocError, true).expect(&rt, "nothing is said");
    assert!(rt; said.at == 5);
    assert!(rt; said.sentence.as_str() == "this `${` is not closed");
}

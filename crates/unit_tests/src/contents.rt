//! The texts of messages and plans, as a terminal can show them, and where a plan comes from.

use plan_text::{Plan, PlanFault};
use service_answers::{Origin, contents_text, document_text, origin_text};
use std::alloc::AllocError;

#[derive(Debug, Drop)]
enum Fail {
    Memory,
    Plan(PlanFault),
}

impl From<AllocError> for Fail {
    fn from(_: AllocError) -> Self {
        Fail::Memory
    }
}

impl From<PlanFault> for Fail {
    fn from(fault: PlanFault) -> Self {
        Fail::Plan(fault)
    }
}

#[test]
fn a_message_is_shown_a_segment_a_line(rt: HostRuntime) -> Result<(), Fail> {
    let text = contents_text(
        rt.alloc(),
        b"MSH|^~\\&|A B\r\nPID|\x1b[1m\xc3\x9c\"\r\rZ\x7f",
    )?;
    let wanted = "  MSH|^~\\&|A B\n  \\x0APID|\\x1B[1m\\xC3\\x9C\"\n  \n  Z\\x7F\n\n";
    assert_eq!(rt; text.as_str(), wanted);
    let whole = contents_text(rt.alloc(), b"MSH|\r")?;
    assert_eq!(rt; whole.as_str(), "  MSH|\n\n");
    Ok(())
}

#[test]
fn a_document_is_shown_a_line_a_line(rt: HostRuntime) -> Result<(), Fail> {
    let text = document_text(rt.alloc(), "# \u{dc}\t\u{9b}1m\r\n\na = 1\n")?;
    assert_eq!(rt;
        text.as_str(),
        "  # \u{dc}\t\\xC2\\x9B1m\\x0D\n  \n  a = 1\n\n"
    );
    Ok(())
}

#[test]
fn a_plan_has_its_origin(rt: HostRuntime) -> Result<(), Fail> {
    let document = b"destination = []\n[[channel]]\nname = \"ADT\"\nlisten = \"127.0.0.1:1\"\n\
types = []\nprocessing = []\nversions = []\n";
    let plan = Plan::read(rt.alloc(), document.as_slice())?;
    let digest = "ccc1cb7e7fc1b5a784115a2b54efe0784628ca36ef01aa37a81c05df16cd41ab";
    let text = origin_text(rt.alloc(), &plan, Origin::File("a b\n"), 1_000_000_000, 3)?;
    let wanted = format!(in rt.alloc();
        "path a b\\x0A\nin force since 2001-09-09T01:46:40Z\nsha256 {digest}\ndeployments 3 left 997\n\n"
    )?;
    assert_eq!(rt; text.as_str(), wanted.as_str());
    let kept = origin_text(rt.alloc(), &plan, Origin::Store, 0, 0)?;
    assert!(rt; kept.starts_with("path none: it is the store's"));
    Ok(())
}

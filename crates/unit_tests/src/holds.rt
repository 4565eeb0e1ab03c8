//! The destinations that are held, the connections to destinations, and the answers about them.

use plan_text::{Plan, PlanFault};
use service_answers::{
    LinkState, LinkView, add_held_without, elsewhere_text, held_already_text, held_text,
    links_text, not_held_text, released_text, waiting_text,
};
use service_workers::HeldNames;
use std::alloc::{AllocError, Global};

#[derive(Debug, Drop)]
enum Fail {
    Memory,
    Plan(PlanFault),
}

impl From<AllocError> for Fail {
    fn from(_: AllocError) -> Self {
        Fail::Memory
    }
}

impl From<PlanFault> for Fail {
    fn from(fault: PlanFault) -> Self {
        Fail::Plan(fault)
    }
}

/// A plan with destinations of these names.
fn plan_with(alloc: Global, names: &[&str]) -> Result<Plan, Fail> {
    let mut text = String::new(alloc);
    writeln!(
        text,
        "[[channel]]\nname = \"ADT\"\nlisten = \"127.0.0.1:1\"\ntypes = []\nprocessing = []\nversions = []"
    )?;
    for name in names {
        writeln!(
            text,
            "[[destination]]\nname = \"{name}\"\naddress = \"127.0.0.1:1\""
        )?;
    }
    Ok(Plan::read(alloc, text.as_bytes())?)
}

#[test]
fn held_destinations_are_those_of_the_names(rt: HostRuntime) -> Result<(), Fail> {
    let alloc = rt.alloc();
    let plan = plan_with(alloc, &["LAB", "RAD", "EHR"])?;
    let turned = plan_with(alloc, &["EHR", "LAB"])?;
    let mut held = HeldNames::new(Vec::new(alloc));
    held.hold(alloc, "LAB")?;
    held.hold(alloc, "EHR")?;
    assert!(rt; held.has(b"LAB") && held.has(b"EHR") && !held.has(b"RAD") && !held.has(b"LA"));
    assert_eq!(rt; held.mask(&plan), 0b101);
    assert_eq!(rt; held.mask(&turned), 0b11);
    let copy = held.copy(alloc)?;
    held.release(b"LAB");
    assert_eq!(rt; held.mask(&plan), 0b100);
    assert_eq!(rt; held.names().len(), 1);
    assert_eq!(rt; copy.mask(&plan), 0b101);
    held.release(b"RAD");
    assert_eq!(rt; held.mask(&turned), 1);
    Ok(())
}

/// Adds an answer.
fn add_answer(text: &mut String, answer: Result<String, AllocError>) -> Result<(), AllocError> {
    text.push_str(answer?.as_str())
}

/// The answers to commands about a destination's hold, one behind another.
fn hold_answers(alloc: Global) -> Result<String, AllocError> {
    let mut text = String::new(alloc);
    add_answer(&mut text, held_text(alloc, "LAB"))?;
    add_answer(&mut text, held_already_text(alloc, "LAB"))?;
    add_answer(&mut text, not_held_text(alloc, "LAB"))?;
    add_answer(&mut text, released_text(alloc, "LAB", false))?;
    add_answer(&mut text, released_text(alloc, "LAB", true))?;
    add_answer(&mut text, waiting_text(alloc, Some("LAB"), 0, &[], 0))?;
    add_answer(&mut text, elsewhere_text(alloc, 7, "LAB"))?;
    Ok(text)
}

#[test]
fn a_hold_is_answered(rt: HostRuntime) -> Result<(), Fail> {
    let text = hold_answers(rt.alloc())?;
    let wanted = "held LAB\n\n\
LAB is held already\n\n\
LAB is not held\n\n\
released LAB\n\n\
released LAB\nthe service is stopping: what waits there may be left undelivered\n\n\
held LAB\nwaiting 0\n\n\
refused: message 7 does not go to LAB\n\n";
    assert_eq!(rt; text.as_str(), wanted);
    Ok(())
}

#[test]
fn a_held_name_without_a_destination_is_shown(rt: HostRuntime) -> Result<(), Fail> {
    let mut text = String::new(rt.alloc());
    add_held_without(&mut text, "LAB")?;
    assert!(rt; text.starts_with("held LAB, which the plan doesn't have: "));
    Ok(())
}

/// Adds what is known of a connection, whose last fault was at this second, if it had one.
fn add_view(
    alloc: Global,
    views: &mut Vec<LinkView>,
    state: LinkState,
    fault: Option<u64>,
) -> Result<(), AllocError> {
    let trouble = match fault {
        Some(second) => Some((second, String::from_str(alloc, "why")?)),
        None => None,
    };
    views.push(LinkView { state, trouble })?;
    Ok(())
}

#[test]
fn each_destination_has_a_line_of_its_connection(rt: HostRuntime) -> Result<(), Fail> {
    let alloc = rt.alloc();
    let plan = plan_with(alloc, &["A", "B", "C", "D", "E"])?;
    let mut views = Vec::new(alloc);
    for (state, fault) in [
        (LinkState::Untried, None),
        (LinkState::Connected(86_400), None),
        (LinkState::Unconnected(Some(100)), Some(40)),
        (LinkState::Unconnected(Some(100)), Some(40)),
        (LinkState::Unconnected(None), None),
    ] {
        add_view(alloc, &mut views, state, fault)?;
    }
    let wanted = "link A never tried\n\
link B connected since 1970-01-02T00:00:00Z\n\
link C not connected; last fault 1970-01-01T00:00:40Z: why; tried next at 1970-01-01T00:01:40Z\n\
link D not connected; last fault 1970-01-01T00:00:40Z: why; not tried while it is held\n\
link E not connected; tried with the next message that is due\n\n";
    let text = links_text(alloc, &plan, &views, 0b1000, 50)?;
    assert_eq!(rt; text.as_str(), wanted);
    Ok(())
}

//! The page and the JSON of made-up states of a service, its probes, and how long searches may take.

use crate::answers::{Fail, state};
use book_lock::Found;
use plan_text::Plan;
use service_http::Status as HttpStatus;
use service_pages::{
    Phase, View, Watch, failed_json, found_json, message_json, status_json, status_page,
    waiting_json,
};
use service_web::{Credit, health, readiness};
use service_workers::Stage;
use std::str;

#[test]
fn json_has_all(rt: HostRuntime) -> Result<(), Fail> {
    let plan = Plan::built_in(rt.alloc())?;
    let (status, mut figures) = state();
    let mut watch = Watch::new();
    let now = figures.now;
    figures.now = 100;
    watch.look(&status, &figures);
    figures.now = now;
    let view = View {
        plan: &plan,
        status: &status,
        figures: &figures,
        watch: &watch,
        phase: Phase::Open,
    };
    let bytes = status_json(rt.alloc(), &view)?;
    let text = str::from_utf8(&bytes).unwrap_or("");
    for part in [
        "{\"stage\":\"open\",\"now\":\"1970-01-01T04:01:00Z\"",
        "\"book\":{\"held\":12,\"owed\":3,\"max\":400,\"messages\":9,\"remembered\":4,",
        "\"store\":{\"commits\":4,\"changes\":10,",
        "\"has_room\":false}",
        "\"unbooked\":{\"full\":8,\"plan_changed\":0,\"no_memory\":1},\"repeats_unbooked\":5,\"dropped\":",
        "{\"name\":\"ADT\",\"listen\":",
        "\"paused\":true,\"open\":3,\"places\":8,",
        "\"last_received\":\"1970-01-02T00:00:00Z\"}",
        "\"front\":{\"message\":7,\"state\":\"waiting\",\"attempts\":2,\"due\":\"2001-09-09T01:46:40Z\",\"since\":\"1970-01-01T00:01:40Z\"}",
        "\"last_failed\":null}",
        "\"held\":true,",
    ] {
        assert!(rt; text.contains(part));
    }
    Ok(())
}

#[test]
fn the_page_begins_with_the_verdict(rt: HostRuntime) -> Result<(), Fail> {
    let plan = Plan::built_in(rt.alloc())?;
    let (status, mut figures) = state();
    let watch = Watch::new();
    let view = View {
        plan: &plan,
        status: &status,
        figures: &figures,
        watch: &watch,
        phase: Phase::Open,
    };
    let bytes = status_page(rt.alloc(), &view)?;
    let text = str::from_utf8(&bytes).unwrap_or("");
    assert!(rt; text.contains("<title>ACT: HL7 service</title>"));
    assert!(rt; text.contains("The disk of the store has no room"));
    assert!(rt; text.contains("Channel <b>ADT</b> is paused"));
    assert!(rt; !text.contains("<script"));
    figures.paused = 0;
    figures.store = None;
    figures.now = 0;
    let view = View {
        plan: &plan,
        status: &status,
        figures: &figures,
        watch: &watch,
        phase: Phase::Open,
    };
    let bytes = status_page(rt.alloc(), &view)?;
    let text = str::from_utf8(&bytes).unwrap_or("");
    assert!(rt; text.contains("<title>LOOK: HL7 service</title>"));
    Ok(())
}

#[test]
fn lists_are_json(rt: HostRuntime) -> Result<(), Fail> {
    let plan = Plan::built_in(rt.alloc())?;
    assert_eq!(rt;
        message_json(rt.alloc(), &plan, 9, &Found::ToCome)?.as_slice(),
        b"{\"message\":9,\"state\":\"no such message\"}\n".as_slice()
    );
    assert_eq!(rt;
        found_json(rt.alloc(), &[1, 22])?.as_slice(),
        b"{\"messages\":[1,22],\"more\":false}\n".as_slice()
    );
    assert_eq!(rt;
        waiting_json(rt.alloc(), "LAB", &[], 3)?.as_slice(),
        b"{\"destination\":\"LAB\",\"waiting\":3,\"messages\":[]}\n".as_slice()
    );
    assert_eq!(rt;
        failed_json(rt.alloc(), "LAB", &[], 0, 3)?.as_slice(),
        b"{\"destination\":\"LAB\",\"failed\":3,\"remembered\":0,\"messages\":[]}\n".as_slice()
    );
    Ok(())
}

#[test]
fn a_failure_is_noticed_once(rt: HostRuntime) {
    let (status, mut figures) = state();
    let mut watch = Watch::new();
    assert_eq!(rt; watch.since(0), 0);
    figures.now = 50;
    watch.look(&status, &figures);
    figures.now = 60;
    watch.look(&status, &figures);
    assert_eq!(rt; watch.since(0), 50);
    assert_eq!(rt; watch.behind_since(0), 50);
    assert_eq!(rt; watch.since(1), 0);
    assert_eq!(rt; watch.failed_at(0), 0);
}

#[test]
fn what_was_not_booked_is_noticed(rt: HostRuntime) {
    let (status, mut figures) = state();
    let mut watch = Watch::new();
    figures.now = 50;
    watch.look(&status, &figures);
    assert!(rt; !watch.unbooked.is_recent(50));
    figures.unbooked.full = 9;
    figures.now = 60;
    watch.look(&status, &figures);
    assert!(rt; watch.unbooked.is_recent(60));
    assert!(rt; watch.unbooked.is_recent(959));
    assert!(rt; !watch.unbooked.is_recent(960));
    assert!(rt; !watch.dropped.is_recent(60));
}

#[test]
fn a_service_is_probed(rt: HostRuntime) {
    assert_eq!(rt; health(Stage::Open, 32), HttpStatus::Ok);
    assert_eq!(rt; health(Stage::Open, 31), HttpStatus::Unavailable);
    assert_eq!(rt; health(Stage::Closing, 3), HttpStatus::Ok);
    assert_eq!(rt; readiness(Stage::Open), HttpStatus::Ok);
    assert_eq!(rt; readiness(Stage::Closing), HttpStatus::Unavailable);
    assert_eq!(rt; readiness(Stage::Halted), HttpStatus::Unavailable);
}

#[test]
fn searches_have_a_tenth_of_the_time(rt: HostRuntime) {
    let mut credit = Credit::new(1_000);
    assert!(rt; credit.may_begin(1_000));
    credit.spend(300);
    assert!(rt; !credit.may_begin(1_009));
    assert!(rt; credit.may_begin(1_010));
    credit.spend(1);
    assert!(rt; !credit.may_begin(1_015));
    assert!(rt; credit.may_begin(9_000));
}

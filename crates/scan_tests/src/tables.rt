//! What the tests of a table share: each call where the table is ready for it.
ghost use Rattle.std.specs.Prelude.{◌≡◌, ℕ, ◌+◌, ◌<◌, ◌^◌, ◌==◌, All, IfOk, IfSome, true};
ghost use Rattle.std.specs.List.{list_any};
ghost use Rattle.supervise_core.specs.Chart.{is_due};
ghost use Rattle.svscan_core.specs.Asked.{work_asked, IsOrderly};
ghost use Rattle.svscan_core.specs.Registry.{IsPlanOf};
ghost use Rattle.svscan_core.specs.Table.{charts_of};
ghost use Rattle.svscan_core.specs.Work.{AreDue};

use s6_events::{At, Name, NoMemory, Sid};
use servicedir::Config;
use std::alloc::{Allocator, Global};
use std::process::Abort;
use supervise_core::ChartState;
use svscan_core::{
    Entry, Registry, RegistryAnswer, RegistryPlan, ScanOrder, ServiceWork, has_repeats,
};

// Whether it is one of these.
fn is_among(due: &[Sid], sid: Sid) -> bool
    ensures { result ≡ list_any (λ other. other == sid) due.now }
{
    due.iter().any(|other| *other == sid)
}

// Whether a service has few runs behind it, and is one of these exactly where its timer is due.
fn is_fit(chart: &ChartState, due: &[Sid], now: At) -> bool
    ensures few { result ≡ true → chart.now.generation + 2 < 2 ^ 64 }
    ensures due { result ≡ true → list_any (λ sid. sid == chart.now.sid) due.now
        ≡ is_due now chart.now.timer }
{
    if chart.generation >= 1000 {
        return false;
    }
    if is_among(due, chart.sid) {
        chart.is_due(now)
    } else {
        !chart.is_due(now)
    }
}

// Whether all services are.
fn are_fit<A: Allocator + Copy>(registry: &Registry<A>, due: &[Sid], now: At) -> bool
    ensures few { result ≡ true → All (λ c. c.generation + 2 < 2 ^ 64)
        (charts_of registry.now.shown.services) }
    ensures fewer { result ≡ true
        → All (λ c. c.generation + 1 < 2 ^ 64) (charts_of registry.now.shown.services) }
    ensures due { result ≡ true → AreDue due.now now (charts_of registry.now.shown.services) }
{
    for place in 0..registry.len() {
        let Some(service) = registry.at(place) else {
            return false;
        };
        if !is_fit(&service.chart(), due, now) {
            return false;
        }
    }
    true
}

// Whether the work lists no name twice.
fn is_orderly(alloc: Global, work: &ServiceWork) -> Result<bool, NoMemory>
    ensures { IfOk result (λ orderly. orderly ≡ true → (next : ℕ) → next < 1000
        → IsOrderly next (work_asked work.now)) }
{
    match work {
        ServiceWork::Listing(listing) => Ok(!has_repeats(alloc, listing)?),
        _ => Ok(true),
    }
}

// Whether all services of the registry are, and few ever stood.
fn is_ready<A: Allocator + Copy>(registry: &Registry<A>, due: &[Sid], now: At) -> bool
    ensures few { result ≡ true → All (λ c. c.generation + 2 < 2 ^ 64)
        (charts_of registry.now.shown.services) }
    ensures due { result ≡ true → AreDue due.now now (charts_of registry.now.shown.services) }
    ensures next { result ≡ true → registry.now.shown.next_sid < 1000 }
{
    if registry.next_sid().0 >= 1000 {
        return false;
    }
    are_fit(registry, due, now)
}

// The step is worked out, where it lists no name twice and the registry is ready for it; None where
// that is not so, or where memory was refused.
fn prepare_orderly<A: Allocator + Copy>(
    registry: &mut Registry<A>,
    due: &[Sid],
    work: &ServiceWork,
    now: At,
) -> Option<RegistryPlan>
    requires { (next : ℕ) → next < 1000 → IsOrderly next (work_asked work.now) }
    ensures { IfSome result (IsPlanOf registry.new) }
{
    if !is_ready(registry, due, now) {
        return None;
    }
    registry.prepare(due, work, now).ok()
}

// The step is worked out, where these services are the ones whose timers are due; None where memory
// was refused.
pub fn prepare<A: Allocator + Copy>(
    rt: &impl Abort,
    alloc: Global,
    registry: &mut Registry<A>,
    due: &[Sid],
    work: &ServiceWork,
    now: At,
) -> Option<RegistryPlan>
    ensures { IfSome result (IsPlanOf registry.new) }
{
    let is_orderly = is_orderly(alloc, work).expect(rt, "memory");
    assert!(rt; is_orderly);
    prepare_orderly(registry, due, work, now)
}

// The scan is made at once; None where memory was refused.
pub fn scan<A: Allocator + Copy>(
    rt: &impl Abort,
    alloc: Global,
    registry: &mut Registry<A>,
    listing: &[Entry],
    now: At,
) -> Option<RegistryAnswer<A>> {
    let repeats = has_repeats(alloc, listing).expect(rt, "memory");
    let are_fit = are_fit(registry, &[], At::zero());
    assert!(rt; !repeats);
    assert!(rt; are_fit);
    assert!(rt; registry.next_sid().0 < 1000);
    registry.scan(listing, now).ok()
}

// All services are told this at once; None where memory was refused.
pub fn control<A: Allocator + Copy>(
    rt: &impl Abort,
    registry: &mut Registry<A>,
    order: ScanOrder,
    now: At,
) -> Option<RegistryAnswer<A>> {
    let are_fit = are_fit(registry, &[], At::zero());
    assert!(rt; are_fit);
    assert!(rt; registry.next_sid().0 < 1000);
    registry.control(order, now).ok()
}

// An entry of this name, which keeps few deaths, so that their memory is small beside that of a
// step.
fn entry(rt: &impl Abort, word: &str) -> Entry {
    let name = Name::new(word.as_bytes()).expect(rt, "a name");
    let config = Config {
        max_death_tally: 2,
        ..Config::plain()
    };
    Entry {
        name,
        config: Some(config),
    }
}

// The listing of these words, with a space between two.
pub fn listing(rt: &impl Abort, alloc: Global, words: &str) -> Vec<Entry, Global> {
    let mut entries = Vec::new(alloc);
    for word in words.split(' ') {
        entries.push(entry(rt, word)).expect(rt, "memory");
    }
    entries
}

// The state of the service at this place, as `nth` and `get` show it; `find` knows it by its name.
fn chart_at<A: Allocator + Copy>(
    rt: &impl Abort,
    registry: &Registry<A>,
    place: usize,
) -> ChartState {
    let sid = registry.nth(place).expect(rt, "a serial");
    let chart = registry.get(sid).expect(rt, "a service").chart();
    assert_eq!(rt; (chart.sid, registry.find(chart.name)), (sid, Some(sid)));
    chart
}

// The state of each service, in their order; none stands behind the last.
pub fn shown<A: Allocator + Copy>(
    rt: &impl Abort,
    alloc: Global,
    registry: &Registry<A>,
) -> Vec<ChartState, Global> {
    assert!(rt; registry.nth(registry.len()).is_none());
    let mut charts = Vec::new(alloc);
    for place in 0..registry.len() {
        charts
            .push(chart_at(rt, registry, place))
            .expect(rt, "memory");
    }
    charts
}

// So many services stand, each of which is shown.
pub fn wants_services<A: Allocator + Copy>(
    rt: &impl Abort,
    alloc: Global,
    registry: &Registry<A>,
    wanted: usize,
) {
    let count = shown(rt, alloc, registry).len();
    assert_eq!(rt; (count, registry.len()), (wanted, wanted));
}

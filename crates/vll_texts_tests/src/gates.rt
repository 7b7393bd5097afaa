//! Tests of gates that hold calls back while a scenario is served.
ghost use Rattle.std.specs.Prelude.{◌≤◌};

use crate::asserts::{equal, holds};
use std::alloc::{AllocError, Global};
use std::hint;
use std::sync::Wait;
use std::sync::atomic::{AtomicU64, Ordering};
use std::test::Fail;
use std::thread::Threads;
use vll_core::Ticket;
use vll_server::{Plain, read_scenario, serve};
use vll_workers::{Gate, MOST_WORKERS};

// Two clients, each of which changes a record of its own.
const TWO_CLIENTS: &str = r#"{"version":1,"records":[0,0],
 "procs":[{"name":"bump","args":1,"keys":[["write","arg",0]],
   "body":[["set",0,["add",["key",0],1]],["reply",["key",0]]]}],
 "clients":[[{"proc":"bump","args":[0]}],[{"proc":"bump","args":[1]}]]}"#;

// Six such clients.
const SIX_CLIENTS: &str = r#"{"version":1,"records":[0,0,0,0,0,0],
 "procs":[{"name":"bump","args":1,"keys":[["write","arg",0]],
   "body":[["set",0,["add",["key",0],1]],["reply",["key",0]]]}],
 "clients":[[{"proc":"bump","args":[0]}],[{"proc":"bump","args":[1]}],[{"proc":"bump","args":[2]}],
  [{"proc":"bump","args":[3]}],[{"proc":"bump","args":[4]}],[{"proc":"bump","args":[5]}]]}"#;

// How long a call is held back at most.
const MOST_TURNS: u64 = 100_000_000;

// Whether the scenario is served by `workers` workers.
fn is_served<R: Threads + Wait + Sync, G: Gate + Sync>(
    rt: &R,
    alloc: Global,
    scenario: &str,
    workers: u32,
    gate: &G,
) -> bool
    requires { (1 ≤ workers) × (workers ≤ MOST_WORKERS) }
{
    let mut reader = Plain::new(scenario.as_bytes());
    let Ok(scenario) = read_scenario(alloc, &mut reader) else {
        return false;
    };
    let mut text = Vec::new(alloc);
    let mut writer = Plain::new(&mut text);
    serve(rt, rt, alloc, scenario, workers, gate, &mut writer).is_ok()
}

// Waits until a counter is at least `number`, for `turns` turns at most. Returns whether it got there.
fn comes_to(counter: &AtomicU64, number: u64, turns: u64) -> bool {
    for _ in 0..turns {
        if counter.load(Ordering::SeqCst) >= number {
            return true;
        }
        hint::spin_loop();
    }
    false
}

// Holds ticket 0 back until `others` others have their replies, and, if there are several, the first of those until
// another one begins.
#[derive(Drop)]
struct Behind {
    others: u64,
    begun: AtomicU64,
    done: AtomicU64,
    met: AtomicU64,
}

impl Behind {
    fn new(others: u64) -> Behind {
        Behind {
            others,
            begun: AtomicU64::new(0),
            done: AtomicU64::new(0),
            met: AtomicU64::new(0),
        }
    }
}

impl Gate for Behind {
    fn before(&self, ticket: Ticket) {
        if ticket.0 == 0 {
            if comes_to(&self.done, self.others, MOST_TURNS) {
                self.met.store(1, Ordering::SeqCst);
            }
        } else if self.begun.fetch_add(1, Ordering::SeqCst) == 0 && self.others > 1 {
            comes_to(&self.begun, 2, MOST_TURNS / 10);
        }
    }

    fn after(&self, ticket: Ticket) {
        if ticket.0 != 0 {
            self.done.fetch_add(1, Ordering::SeqCst);
        }
    }
}

#[test]
fn later_call_is_done_while_the_first_is_held_back(rt: HostRuntime) {
    let gate = Behind::new(1);
    let served = is_served(&rt, rt.alloc(), TWO_CLIENTS, 2, &gate);
    holds(&rt, served);
    equal(&rt, gate.met.load(Ordering::SeqCst), 1);
}

// A scenario whose first call is on record 0, whichever client makes it. Two clients make only such calls. The other
// one then changes record 4 twice, and record 1. With 4 bits, records 0 and 4 have one place under modulo, place 0, and
// two under spread, 0 and 1.
fn on_records_0_and_4(alloc: Global) -> Result<String, AllocError> {
    let mut text = String::from_str(
        alloc,
        r#"{"version":1,"records":[0,0,0,0,0],"hash":"spread","bits":4,
         "procs":[{"name":"bump","args":1,"keys":[["write","arg",0]],
           "body":[["set",0,["add",["key",0],1]],["reply",["key",0]]]}],
         "clients":[[{"proc":"bump","args":[0]},{"proc":"bump","args":[4]},
           {"proc":"bump","args":[4]},{"proc":"bump","args":[1]}]"#,
    )?;
    for _ in 0..2 {
        push_calls_on_record_0(&mut text)?;
    }
    text.push_str("]}")?;
    Ok(text)
}

fn push_calls_on_record_0(text: &mut String) -> Result<(), AllocError> {
    text.push_str(r#",[{"proc":"bump","args":[0]}"#)?;
    for _ in 0..100 {
        text.push_str(r#",{"proc":"bump","args":[0]}"#)?;
    }
    text.push_str("]")
}

// Ticket 0 holds record 0. The first call on record 4 is held back until the call on record 1 begins, so the second one
// on record 4 is blocked. Once the first is gone, it can run only if the scan finds it.
#[test]
fn scan_goes_by_the_hash_of_the_scenario(rt: HostRuntime) -> Result<(), Fail> {
    let text = on_records_0_and_4(rt.alloc())?;
    let gate = Behind::new(3);
    let served = is_served(&rt, rt.alloc(), text.as_str(), 3, &gate);
    holds(&rt, served);
    equal(&rt, gate.met.load(Ordering::SeqCst), 1);
    Ok(())
}

// Holds each call back until `wanted` are held back at one time, for `turns` turns at most.
#[derive(Drop)]
struct Together {
    wanted: u64,
    turns: u64,
    inside: AtomicU64,
    met: AtomicU64,
}

impl Gate for Together {
    fn before(&self, _ticket: Ticket) {
        self.inside.fetch_add(1, Ordering::SeqCst);
        for _ in 0..self.turns {
            if self.inside.load(Ordering::SeqCst) >= self.wanted {
                self.met.store(1, Ordering::SeqCst);
            }
            if self.met.load(Ordering::SeqCst) == 1 {
                break;
            }
            hint::spin_loop();
        }
        self.inside.fetch_sub(1, Ordering::SeqCst);
    }

    fn after(&self, _ticket: Ticket) {}
}

impl Together {
    fn new(wanted: u64, turns: u64) -> Together {
        Together {
            wanted,
            turns,
            inside: AtomicU64::new(0),
            met: AtomicU64::new(0),
        }
    }
}

#[test]
fn six_workers_hold_six_calls_at_one_time(rt: HostRuntime) {
    let gate = Together::new(6, MOST_TURNS);
    let served = is_served(&rt, rt.alloc(), SIX_CLIENTS, 6, &gate);
    holds(&rt, served);
    equal(&rt, gate.met.load(Ordering::SeqCst), 1);
}

// A worker that begins several calls executes one after the other.
#[test]
fn one_worker_holds_no_two_calls(rt: HostRuntime) {
    let gate = Together::new(2, 100_000);
    let served = is_served(&rt, rt.alloc(), SIX_CLIENTS, 1, &gate);
    holds(&rt, served);
    equal(&rt, gate.met.load(Ordering::SeqCst), 0);
}

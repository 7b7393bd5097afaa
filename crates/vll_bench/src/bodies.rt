//! What a run of a body costs, by its size and by what it is made of, and what a native closure costs.
ghost use Rattle.std.specs.Prelude.{ℕ};
ghost use Rattle.vll_proc.specs.Made.{IsCallOf};
ghost use Rattle.vll_proc.specs.WellFormed.{IsWellFormed};

use crate::fault::Fault;
use crate::shapes::Shape;
use std::alloc::Global;
use std::time::CpuClock;
use vll_check::Library;
use vll_proc::{Call, Frame, Proc};
use vll_server::{Plain, ScenarioParts, read_scenario};

// The bodies: by size, then by what they are made of.
const SHAPES: [Shape; 23] = [
    Shape::Same("bump", 1, 4, r#"["set",0,["add",["key",0],1]]"#),
    Shape::Mixed(30),
    Shape::Mixed(500),
    Shape::Mixed(1_024),
    Shape::Same("add", 120, 4, r#"["let",0,["add",["key",0],2]]"#),
    Shape::Same("sub", 120, 4, r#"["let",0,["sub",["key",0],2]]"#),
    Shape::Same("mul", 120, 4, r#"["let",0,["mul",["key",0],2]]"#),
    Shape::Same("div", 120, 4, r#"["let",0,["div",["key",0],2]]"#),
    Shape::Same("rem", 120, 4, r#"["let",0,["rem",["key",0],2]]"#),
    Shape::Same("min", 120, 4, r#"["let",0,["min",["key",0],2]]"#),
    Shape::Same("max", 120, 4, r#"["let",0,["max",["key",0],2]]"#),
    Shape::Same("equal", 120, 4, r#"["let",0,["equal",["key",0],2]]"#),
    Shape::Same("less", 120, 4, r#"["let",0,["less",["key",0],2]]"#),
    Shape::Same("not", 160, 3, r#"["let",0,["not",["key",0]]]"#),
    Shape::Nested {
        name: "sums, nested on the left",
        copies: 8,
        first: r#"["let",0,"#,
        opening: r#"["add","#,
        inner: r#"["key",0]"#,
        closing: ",2]",
        last: "]",
    },
    Shape::Nested {
        name: "sums, nested on the right",
        copies: 8,
        first: r#"["let",0,"#,
        opening: r#"["add",2,"#,
        inner: r#"["key",0]"#,
        closing: "]",
        last: "]",
    },
    Shape::Same("let", 240, 2, r#"["let",0,2]"#),
    Shape::Same("set", 240, 2, r#"["set",0,2]"#),
    Shape::Same("reply", 8, 2, r#"["reply",2]"#),
    Shape::Same("if, its first list", 120, 4, r#"["if",1,[["let",0,2]],[]]"#),
    Shape::Same(
        "if, its second list",
        120,
        4,
        r#"["if",0,[],[["let",0,2]]]"#,
    ),
    Shape::Nested {
        name: "if, nested",
        copies: 8,
        first: "",
        opening: r#"["if",1,["#,
        inner: r#"["let",0,2]"#,
        closing: "],[]]",
        last: "",
    },
    Shape::Same("abort", 1, 1, r#"["abort",7]"#),
];

// The scenario with a body, up to its first statement.
const BEFORE: &str = r#"{"version":1,"records":[0],"clients":[],
 "procs":[{"name":"body","args":0,"keys":[["write","fixed",0]],"body":["#;

// What the record holds at first. No operator aborts on it.
const VALUE: u64 = 1_000_000;

// About how many nodes run in a measurement.
const NODES: u32 = 4_000_000;

// The most runs of a measurement.
const RUNS: u32 = 200_000;

// How often each is measured. The fastest counts, since other work disturbs the others.
const REPEATS: u32 = 5;

/// Prints the costs of bodies, and before the smallest one that of a native closure that does the same.
pub(crate) fn measure_bodies(rt: &(impl CpuClock + Print + AllocGlobal)) -> Result<(), Fault> {
    let bump = |frame: &mut Frame| match frame.get(0).checked_add(1) {
        Some(sum) => {
            frame.put(0, sum);
            true
        }
        None => false,
    };
    let idle = |_: &mut Frame| true;
    // Which of the two is timed depends on the clock alone, so that the compiler cannot inline either in place of the
    // call.
    let nanos = if rt.thread_cpu_time()?.is_zero() {
        time_of_native(rt, &idle)?
    } else {
        time_of_native(rt, &bump)?
    };
    print(rt, "a native closure", 4, nanos, RUNS)?;
    for shape in SHAPES {
        measure(rt, shape)?;
    }
    Ok(())
}

// Prints the cost of a body.
fn measure(rt: &(impl CpuClock + Print + AllocGlobal), shape: Shape) -> Result<(), Fault> {
    let library = library(rt.alloc(), shape)?;
    let call = library.with_found(&library.call("body", &[])?, 0);
    let Some(procedure) = library.proc(call.number) else {
        return Err(Fault::Refused);
    };
    let runs = RUNS.min(NODES / shape.nodes().max(1));
    let nanos = time_of(rt, procedure, &call, runs)?;
    print(rt, shape.name(), shape.nodes(), nanos, runs)
}

// Prints the nanoseconds per run and per node, to a tenth.
fn print(rt: &impl Print, name: &str, nodes: u32, nanos: u64, runs: u32) -> Result<(), Fault> {
    let runs = u64::from(runs.max(1));
    let run = nanos.saturating_mul(10) / runs;
    let node = nanos.saturating_mul(10) / runs.saturating_mul(u64::from(nodes)).max(1);
    println!(rt;
        "{name}, {nodes} nodes: {}.{} ns a run, {}.{} ns a node",
        run / 10,
        run % 10,
        node / 10,
        node % 10
    )?;
    Ok(())
}

// Returns the nanoseconds of processor time that `runs` runs of a body take.
fn time_of(rt: &impl CpuClock, procedure: &Proc, call: &Call, runs: u32) -> Result<u64, Fault>
    requires formed { IsWellFormed procedure.now }
    requires made { (n : ℕ) × IsCallOf n procedure.now call.now }
{
    let mut fastest = u64::MAX;
    for _ in 0..REPEATS {
        let mut frame = opened();
        let start = rt.thread_cpu_time()?;
        for _ in 0..runs {
            frame.run(procedure, call);
        }
        let time = rt.thread_cpu_time()?.saturating_sub(start);
        fastest = fastest.min(time.as_nanos().min(u128::from(u64::MAX)) as u64);
    }
    Ok(fastest)
}

// As `time_of`, for `RUNS` calls of a closure.
#[inline(never)]
fn time_of_native(rt: &impl CpuClock, native: &dyn Fn(&mut Frame) -> bool) -> Result<u64, Fault>
    requires { IsAlwaysCallable native.now }
{
    let mut fastest = u64::MAX;
    for _ in 0..REPEATS {
        let mut frame = opened();
        let start = rt.thread_cpu_time()?;
        for _ in 0..RUNS {
            if !native(&mut frame) {
                return Err(Fault::Refused);
            }
        }
        let time = rt.thread_cpu_time()?.saturating_sub(start);
        fastest = fastest.min(time.as_nanos().min(u128::from(u64::MAX)) as u64);
    }
    Ok(fastest)
}

// The cells, with the record's value in the first.
fn opened() -> Frame {
    let mut frame = Frame::new();
    frame.put(0, VALUE);
    frame
}

// The library of one procedure with this body, over one record, which it writes.
fn library(alloc: Global, shape: Shape) -> Result<Library, Fault> {
    let mut text = String::from_str(alloc, BEFORE)?;
    shape.push(alloc, &mut text)?;
    text.push_str("]}]}")?;
    let scenario = read_scenario(alloc, &mut Plain::new(text.as_bytes()))?;
    let ScenarioParts { library, .. } = scenario.into_parts();
    Ok(library)
}

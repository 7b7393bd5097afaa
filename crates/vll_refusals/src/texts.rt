//! The functions that read or write a text.
ghost use Rattle.std.specs.Prelude.{◌≤◌};

use crate::answer::Answer;
use crate::unready::Unready;
use crate::{begin, end};
use std::alloc::AllocError;
use std::sync::Wait;
use std::thread::Threads;
use vll_server::{
    Closed, Plain, ReplayFault, ScenarioFault, ServeFault, Sink, Source, WriteFault, read_scenario,
    replay, serve, write_outcome,
};
use vll_stream::{StreamFault, serve_stream};
use vll_workers::{OpenGate, RunFault};

// A transfer, and then a read of both records. A procedure that is not called has nested lists.
const TRANSFER: &str = r#"{"version":2,"records":[100,50],
 "procs":[
  {"name":"transfer","args":3,"keys":[["write","arg",0],["write","arg",1]],
   "body":[["set",0,["sub",["key",0],["arg",2]]],
           ["set",1,["add",["key",1],["arg",2]]],["reply",["key",0]]]},
  {"name":"sum2","args":2,"keys":[["read","arg",0],["read","arg",1]],
   "body":[["reply",["add",["key",0],["key",1]]]]},
  {"name":"often","args":1,"keys":[],
   "body":[["repeat",2,[["if",["arg",0],[["reply",1]],[["repeat",2,[["reply",2]]]]]]]]}],
 "clients":[[{"proc":"transfer","args":[0,1,30]},{"proc":"sum2","args":[0,1]}]],
 "schedule":[["enter",0],["claim"],["front"]]}"#;

const SERVED: &str =
    "call 0 client 0 committed 70\ncall 1 client 0 committed 150\nrecord 0 value 70 pair 0\nrecord 1 value 80 pair 0\n";

const REPLAYED: &str =
    "0 opened\n1 claimed 0 granted\n2 refused turn open\nrecord 0 value 100 pair 4294967296\nrecord 1 value 50 pair 0\n";

const WRITTEN: &str = "record 0 value 100 pair 0\nrecord 1 value 50 pair 0\n";

// The same bank for a service, with one client.
const BANK: &str = r#"{"version":1,"records":[100,50],
 "procs":[
  {"name":"transfer","args":3,"keys":[["write","arg",0],["write","arg",1]],
   "body":[["set",0,["sub",["key",0],["arg",2]]],
           ["set",1,["add",["key",1],["arg",2]]],["reply",["key",0]]]}],
 "clients":[[]]}"#;

const ASKED: &str = r#"{"id":"a","client":0,"proc":"transfer","args":[0,1,30]}
{"counts":true}
{"records":[1,1]}
{"client":0,"proc":"sum","args":[]}"#;

const STREAMED: &str = r#"{"id":"a","call":0,"committed":[70]}
{"counts":{"calls":1,"aborted":{"code":0,"overflow":0,"underflow":0,"zero divisor":0,"moved":0},"rounds":1,"most_lines":3}}
{"records":[80]}
{"fault":"no procedure has the name sum"}
{"calls":1,"records":[70,80]}
"#;

// A transfer that changes nothing.

pub(crate) fn read(rt: &(impl Print + AllocGlobal)) -> Result<Answer, Unready> {
    let mut reader = Plain::new(TRANSFER.as_bytes());
    begin(rt)?;
    let read = read_scenario(rt.alloc(), &mut reader);
    end(rt)?;
    let answer = match read {
        Ok(scenario) => {
            let parts = scenario.into_parts();
            Answer::Ample.only_if(parts.records.as_slice() == [100, 50].as_slice())
        }
        Err(ScenarioFault::NoMemory) => Answer::NoMemory,
        Err(_) => Answer::Wrong,
    };
    Ok(answer.only_if(!reader.has_failed()))
}

pub(crate) fn write<R: Print + AllocGlobal>(rt: &R) -> Result<Answer, Unready> {
    let alloc = rt.alloc();
    let closed = Closed {
        records: vec![in alloc; 100, 50]?,
        pairs: vec![in alloc; 0, 0]?,
        journal: Vec::new(alloc),
    };
    let mut taken = vec![in alloc; 0; WRITTEN.len()]?;
    let mut free = taken.as_mut_slice();
    let mut writer = Plain::new(&mut free);
    begin(rt)?;
    let written = write_outcome(alloc, &mut writer, &closed);
    end(rt)?;
    let answer = match written {
        Ok(()) => Answer::Ample,
        Err(WriteFault::NoMemory) => Answer::NoMemory,
        Err(WriteFault::Write) => Answer::Wrong,
    };
    let left = free.len();
    Ok(of_text(answer, taken.as_slice(), left, WRITTEN))
}

pub(crate) fn served<R: Print + AllocGlobal + Threads + Wait + Sync>(
    rt: &R,
) -> Result<Answer, Unready> {
    let alloc = rt.alloc();
    let scenario = read_scenario(alloc, &mut Plain::new(TRANSFER.as_bytes()))?;
    let mut taken = vec![in alloc; 0; SERVED.len()]?;
    let mut free = taken.as_mut_slice();
    let mut writer = Plain::new(&mut free);
    begin(rt)?;
    let served = serve(rt, rt, alloc, scenario, 3, &OpenGate, &mut writer);
    end(rt)?;
    let answer = match served {
        Ok(()) => Answer::Ample,
        Err(ServeFault::NoMemory | ServeFault::Run(RunFault::NoMemory)) => Answer::NoMemory,
        Err(ServeFault::Run(RunFault::Spawn)) => Answer::Spawn,
        Err(_) => Answer::Wrong,
    };
    let left = free.len();
    Ok(of_text(answer, taken.as_slice(), left, SERVED))
}

pub(crate) fn replayed<R: Print + AllocGlobal>(rt: &R) -> Result<Answer, Unready> {
    let alloc = rt.alloc();
    let mut taken = vec![in alloc; 0; REPLAYED.len()]?;
    let mut free = taken.as_mut_slice();
    let mut reader = Plain::new(TRANSFER.as_bytes());
    let mut writer = Plain::new(&mut free);
    begin(rt)?;
    let replayed = replay(alloc, &mut reader, &mut writer);
    end(rt)?;
    let answer = match replayed {
        Ok(()) => Answer::Ample,
        Err(ReplayFault::NoMemory | ReplayFault::Scenario(ScenarioFault::NoMemory)) => {
            Answer::NoMemory
        }
        Err(_) => Answer::Wrong,
    };
    let left = free.len();
    Ok(of_text(answer, taken.as_slice(), left, REPLAYED))
}

pub(crate) fn streamed<R: Print + AllocGlobal + Wait>(rt: &R) -> Result<Answer, Unready> {
    of_stream(rt, ASKED, STREAMED)
}

// The answer of a service of the bank, which answers this input by this text.
fn of_stream<R: Print + AllocGlobal + Wait>(
    rt: &R,
    input: &str,
    text: &str,
) -> Result<Answer, Unready> {
    let alloc = rt.alloc();
    let scenario = read_scenario(alloc, &mut Plain::new(BANK.as_bytes()))?;
    let mut taken = vec![in alloc; 0; text.len()]?;
    let mut free = taken.as_mut_slice();
    let mut reader = Plain::new(input.as_bytes());
    let mut writer = Plain::new(&mut free);
    begin(rt)?;
    let served = serve_stream(rt, alloc, scenario, &mut reader, &mut writer);
    end(rt)?;
    let answer = match served {
        Ok(()) => Answer::Ample,
        Err(StreamFault::NoMemory) => Answer::NoMemory,
        Err(_) => Answer::Wrong,
    };
    let left = free.len();
    Ok(of_beginning(answer, taken.as_slice(), left, text))
}

// Returns this answer if the whole text was written with ample memory, or a beginning of it without.
fn of_beginning(answer: Answer, taken: &[u8], left: usize, text: &str) -> Answer {
    let written = taken.len().saturating_sub(left);
    let begins = taken
        .iter()
        .zip(text.as_bytes())
        .take(written)
        .all(|(byte, wanted)| byte == wanted);
    answer.only_if(begins && (left == 0 || answer != Answer::Ample))
}

// Returns this answer if the whole text was written with ample memory, or nothing without.
fn of_text(answer: Answer, taken: &[u8], left: usize, text: &str) -> Answer {
    match answer {
        Answer::Ample => answer.only_if(left == 0 && taken == text.as_bytes()),
        _ => answer.only_if(left == text.len()),
    }
}

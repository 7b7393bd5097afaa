//! Tests of whole services over bytes in memory.
use crate::asserts::equal;
use crate::streams::Slow;
use std::alloc::Global;
use std::fmt::Write;
use std::io;
use std::process::Abort;
use std::sync::Wait;
use std::test::Fail;
use vll_scenario::{Plain, read_scenario};
use vll_stream::{StreamFault, serve_stream};

// A bank of two clients.
const BANK: &str = r#"{"version":1,"records":[100,50],"procs":[
 {"name":"transfer","args":3,"keys":[["write","arg",0],["write","arg",1]],
  "body":[["set",0,["sub",["key",0],["arg",2]]],
          ["set",1,["add",["key",1],["arg",2]]],["reply",["key",0]]]},
 {"name":"p","args":0,"keys":[],"body":[]}],
 "clients":[[],[]]}"#;

// What a service of a scenario writes for what the reader gives.
fn written<R: io::Read + Drop>(
    wait: &impl Wait,
    alloc: Global,
    scenario: &str,
    reader: R,
) -> Result<Vec<u8>, Fail> {
    let scenario = read_scenario(alloc, &mut Plain::new(scenario.as_bytes()))?;
    let mut output = Vec::new(alloc);
    let mut writer = Plain::new(&mut output);
    let mut reader = Plain::new(reader);
    serve_stream(wait, alloc, scenario, &mut reader, &mut writer)?;
    Ok(output)
}

// What a service of the bank writes for an input.
fn served(wait: &impl Wait, alloc: Global, input: &str) -> Result<Vec<u8>, Fail> {
    written(wait, alloc, BANK, input.as_bytes())
}

// Asserts that a service of a scenario writes this for what the reader gives.
fn check<T: Wait + Abort + AllocGlobal, R: io::Read + Drop>(
    rt: &T,
    scenario: &str,
    reader: R,
    wanted: &str,
) -> Result<(), Fail> {
    let found = written(rt, rt.alloc(), scenario, reader)?;
    equal(rt, std::str::from_utf8(found.as_slice())?, wanted);
    Ok(())
}

#[test]
fn each_line_is_answered(rt: HostRuntime) -> Result<(), Fail> {
    let input = r#"{"id":7,"client":0,"proc":"transfer","args":[0,1,30]}
{"id":"b","client":1,"proc":"transfer","args":[1,0,90]}

{"client":2,"proc":"transfer","args":[1,0,1]}
{"client":1,"proc":"transfer","args":[1,0,1]}"#;
    let wanted = r#"{"id":7,"call":0,"committed":[70]}
{"id":"b","call":1,"aborted":"underflow"}
{"fault":"the line is empty"}
{"fault":"there is no client 2"}
{"call":2,"committed":[79]}
{"calls":3,"records":[71,79]}
"#;
    check(&rt, BANK, input.as_bytes(), wanted)
}

#[test]
fn empty_input_has_the_first_records(rt: HostRuntime) -> Result<(), Fail> {
    let wanted = "{\"calls\":0,\"records\":[100,50]}\n";
    check(&rt, BANK, "".as_bytes(), wanted)
}

// Procedures that are aborted for each reason that one thread can see.
const ABORTING: &str = r#"{"version":1,"records":[5],"procs":[
 {"name":"code","args":1,"keys":[],"body":[["if",["arg",0],[["abort",7]],[["abort",0]]]]},
 {"name":"over","args":0,"keys":[],"body":[["reply",["add",18446744073709551615,1]]]},
 {"name":"under","args":0,"keys":[],"body":[["reply",["sub",0,1]]]},
 {"name":"divide","args":0,"keys":[],"body":[["reply",["div",1,0]]]},
 {"name":"fine","args":0,"keys":[],"body":[]}],
 "clients":[[]]}"#;

#[test]
fn counts_are_of_the_calls_before(rt: HostRuntime) -> Result<(), Fail> {
    let input = r#"{"counts":true}
{"proc":"code","args":[0]}
{"id":7,"counts":true}
{"proc":"over","args":[]}
{"proc":"under","args":[]}
{"proc":"divide","args":[]}
{"proc":"code","args":[1]}
{"proc":"fine","args":[]}
{"proc":"none","args":[]}
{"counts":true,"id":"b"}
{"counts":true}
{"counts":false}
{"counts":true,"proc":"fine","args":[]}
"#;
    let wanted =
        r#"{"counts":{"calls":0,"aborted":{"code":0,"overflow":0,"underflow":0,"zero divisor":0,"moved":0},"rounds":1,"most_lines":13}}
{"call":0,"aborted":0}
{"id":7,"counts":{"calls":1,"aborted":{"code":1,"overflow":0,"underflow":0,"zero divisor":0,"moved":0},"rounds":1,"most_lines":13}}
{"call":1,"aborted":"overflow"}
{"call":2,"aborted":"underflow"}
{"call":3,"aborted":"zero divisor"}
{"call":4,"aborted":7}
{"call":5,"committed":[]}
{"fault":"no procedure has the name none"}
{"id":"b","counts":{"calls":6,"aborted":{"code":2,"overflow":1,"underflow":1,"zero divisor":1,"moved":0},"rounds":1,"most_lines":13}}
{"counts":{"calls":6,"aborted":{"code":2,"overflow":1,"underflow":1,"zero divisor":1,"moved":0},"rounds":1,"most_lines":13}}
{"fault":"counts has to be true"}
{"fault":"the line has to be an object with proc, args and perhaps client and id"}
{"calls":6,"records":[5]}
"#;
    check(&rt, ABORTING, input.as_bytes(), wanted)
}

// Each line with records lies between calls of the round.
#[test]
fn records_are_those_at_their_place(rt: HostRuntime) -> Result<(), Fail> {
    let input = r#"{"records":[0,2]}
{"proc":"transfer","args":[0,1,30]}
{"id":7,"records":[0,2]}
{"proc":"transfer","args":[1,0,90]}
{"client":1,"proc":"transfer","args":[1,0,79]}
{"records":[1,1],"id":"b"}
{"records":[0,1]}
{"records":[1,0]}
{"records":[1,2]}
{"records":[0]}
{"proc":"transfer","args":[0,1,100]}
"#;
    let wanted = r#"{"records":[100,50]}
{"call":0,"committed":[70]}
{"id":7,"records":[70,80]}
{"call":1,"aborted":"underflow"}
{"call":2,"committed":[1]}
{"id":"b","records":[1]}
{"records":[149]}
{"records":[]}
{"fault":"records has to ask for at most 1024 records, all of which there are"}
{"fault":"records has to be a list of two whole numbers, the first record and how many"}
{"call":3,"committed":[49]}
{"calls":4,"records":[49,101]}
"#;
    check(&rt, BANK, input.as_bytes(), wanted)
}

// A bank that finds the second account of a transfer by the value of the first record.
const FINDING: &str = r#"{"version":2,"records":[1,100,50],"procs":[
 {"name":"take","args":1,"keys":[["read","fixed",0],["write","through",0]],
  "body":[["set",1,["sub",["key",1],["arg",0]]]]},
 {"name":"turn","args":1,"keys":[["write","fixed",0]],"body":[["set",0,["arg",0]]]}],
 "clients":[[]]}"#;

#[test]
fn records_follow_what_calls_have_found(rt: HostRuntime) -> Result<(), Fail> {
    let input = r#"{"proc":"take","args":[7]}
{"proc":"turn","args":[2]}
{"records":[0,3]}
{"proc":"take","args":[9]}
{"records":[0,3]}
{"proc":"take","args":[60]}
{"records":[0,3]}
"#;
    let wanted = r#"{"call":0,"committed":[]}
{"call":1,"committed":[]}
{"records":[2,93,50]}
{"call":2,"committed":[]}
{"records":[2,93,41]}
{"call":3,"aborted":"underflow"}
{"records":[2,93,41]}
{"calls":4,"records":[2,93,41]}
"#;
    check(&rt, FINDING, input.as_bytes(), wanted)
}

// Lines that ask for `count` transfers of 1 from the first account to the second, or from the second to the first. They
// differ in length, so that a round ends anywhere.
fn transfers(alloc: Global, count: u32) -> Result<String, Fail> {
    let mut input = String::new(alloc);
    for i in 0..count {
        let (client, from) = (i % 2, i / 2 % 2);
        let to = 1 - from;
        let space = if i % 3 == 0 { " " } else { "" };
        write!(
            input,
            "{{\"client\":{client},\"proc\":\"transfer\",\"args\":[{from},{to},1]{space}}}\n"
        )?;
    }
    Ok(input)
}

// An aborted call is in the first engine, and the counts are asked for in the second.
#[test]
fn counts_go_on_over_the_epochs(rt: HostRuntime) -> Result<(), Fail> {
    let mut input = String::from_str(rt.alloc(), "{\"proc\":\"transfer\",\"args\":[0,1,101]}\n")?;
    input.push_str(transfers(rt.alloc(), 70_002)?.as_str())?;
    input.push_str("{\"counts\":true}\n")?;
    let found = served(&rt, rt.alloc(), input.as_str())?;
    let wanted =
        r#"{"counts":{"calls":70003,"aborted":{"code":0,"overflow":0,"underflow":1,"zero divisor":0,"moved":0},"rounds":99,"most_lines":708}}
{"calls":70003,"records":[98,52]}
"#;
    let text = std::str::from_utf8(found.as_slice())?;
    equal(&rt, text.ends_with(wanted), true);
    Ok(())
}

// Records are asked for in the first engine, and then in the second.
#[test]
fn records_go_on_over_the_epochs(rt: HostRuntime) -> Result<(), Fail> {
    let mut input = transfers(rt.alloc(), 10)?;
    input.push_str("{\"records\":[0,2]}\n")?;
    input.push_str(transfers(rt.alloc(), 70_002)?.as_str())?;
    input.push_str("{\"records\":[0,2]}\n{\"proc\":\"transfer\",\"args\":[0,1,7]}\n")?;
    let found = served(&rt, rt.alloc(), input.as_str())?;
    let wanted = r#"{"records":[96,54]}
{"call":70012,"committed":[89]}
{"calls":70013,"records":[89,61]}
"#;
    let text = std::str::from_utf8(found.as_slice())?;
    equal(&rt, text.contains("{\"records\":[98,52]}\n"), true);
    equal(&rt, text.ends_with(wanted), true);
    Ok(())
}

// The last of its lines.
fn last_line(text: &[u8]) -> Result<&str, Fail> {
    let text = std::str::from_utf8(text)?;
    Ok(text.trim_end().rsplit('\n').next().unwrap_or(""))
}

#[test]
fn client_that_is_left_out_is_the_first(rt: HostRuntime) -> Result<(), Fail> {
    let input = r#"{"proc":"transfer","args":[0,1,30]}
{"client":null,"proc":"transfer","args":[0,1,30]}
{"client":0,"proc":"transfer","args":[0,1,30]}"#;
    let wanted = r#"{"call":0,"committed":[70]}
{"fault":"client has to be the number of a client"}
{"call":1,"committed":[40]}
{"calls":2,"records":[40,110]}
"#;
    check(&rt, BANK, input.as_bytes(), wanted)
}

#[test]
fn epochs_go_on_over_the_records(rt: HostRuntime) -> Result<(), Fail> {
    let input = transfers(rt.alloc(), 70_002)?;
    let found = served(&rt, rt.alloc(), input.as_str())?;
    let last = last_line(found.as_slice())?;
    equal(&rt, last, "{\"calls\":70002,\"records\":[98,52]}");
    Ok(())
}

// A round of the shortest lines comes where an engine has room for some 1,300 more calls.
#[test]
fn round_of_short_lines_has_room(rt: HostRuntime) -> Result<(), Fail> {
    let mut input = transfers(rt.alloc(), 64_300)?;
    for _ in 0..4_000 {
        input.push_str("{\"proc\":\"p\",\"args\":[]}\n")?;
    }
    let found = served(&rt, rt.alloc(), input.as_str())?;
    let last = last_line(found.as_slice())?;
    equal(&rt, last, "{\"calls\":68300,\"records\":[100,50]}");
    Ok(())
}

// A reader that supplies its text a byte at a time.
fn slow(text: &str) -> Slow<'_> {
    Slow {
        text: text.as_bytes(),
        breaks: false,
    }
}

#[test]
fn input_may_come_byte_by_byte(rt: HostRuntime) -> Result<(), Fail> {
    let input = transfers(rt.alloc(), 10)?;
    let wanted = served(&rt, rt.alloc(), input.as_str())?;
    let found = written(&rt, rt.alloc(), BANK, slow(input.as_str()))?;
    equal(&rt, found.as_slice(), wanted.as_slice());
    Ok(())
}

// Then each line is a round of its own.
#[test]
fn counts_tell_the_rounds(rt: HostRuntime) -> Result<(), Fail> {
    let wanted =
        r#"{"counts":{"calls":0,"aborted":{"code":0,"overflow":0,"underflow":0,"zero divisor":0,"moved":0},"rounds":1,"most_lines":1}}
{"call":0,"committed":[]}
{"counts":{"calls":1,"aborted":{"code":0,"overflow":0,"underflow":0,"zero divisor":0,"moved":0},"rounds":3,"most_lines":1}}
{"calls":1,"records":[100,50]}
"#;
    let input = "{\"counts\":true}\n{\"proc\":\"p\",\"args\":[]}\n{\"counts\":true}";
    check(&rt, BANK, slow(input), wanted)
}

#[test]
fn line_that_is_too_long_is_read_over(rt: HostRuntime) -> Result<(), Fail> {
    for (length, wanted) in [
        (
            65_536,
            "{\"fault\":\"no JSON text: column 1\"}\n{\"calls\":0,\"records\":[100,50]}\n",
        ),
        (
            65_537,
            "{\"fault\":\"the line has more than 65536 bytes\"}\n{\"calls\":0,\"records\":[100,50]}\n",
        ),
        (
            200_000,
            "{\"fault\":\"the line has more than 65536 bytes\"}\n{\"calls\":0,\"records\":[100,50]}\n",
        ),
    ] {
        let mut input = String::new(rt.alloc());
        for _ in 0..length {
            input.push('x')?;
        }
        check(&rt, BANK, input.as_bytes(), wanted)?;
    }
    Ok(())
}

#[test]
fn scenario_with_calls_is_refused(rt: HostRuntime) -> Result<(), Fail> {
    let text =
        "{\"version\":1,\"records\":[7],\"procs\":[{\"name\":\"p\",\"args\":0,\"keys\":[],\"body\":[]}],
        \"clients\":[[{\"proc\":\"p\",\"args\":[]}]]}";
    let scenario = read_scenario(rt.alloc(), &mut Plain::new(text.as_bytes()))?;
    let mut output = Vec::new(rt.alloc());
    let mut writer = Plain::new(&mut output);
    let mut reader = Plain::new("".as_bytes());
    let refused = serve_stream(&rt, rt.alloc(), scenario, &mut reader, &mut writer);
    equal(&rt, refused, Err(StreamFault::Calls));
    equal(&rt, output.len(), 0);
    Ok(())
}

// A reader that supplies its text in one piece, and fails then.
#[derive(Drop)]
struct Broken<'a>(&'a [u8]);

impl io::Read for Broken<'_> {
    fn read(&mut self, buf: &mut [u8]) -> io::Result<usize> {
        let count = self.0.len().min(buf.len());
        if count == 0 {
            return Err(closed());
        }
        buf[..count].copy_from_slice(&self.0[..count]);
        self.0 = &self.0[count..];
        Ok(count)
    }
}

fn closed() -> io::Error {
    io::Error::from(io::ErrorKind::BrokenPipe)
}

#[test]
fn lines_before_a_failed_read_are_answered(rt: HostRuntime) -> Result<(), Fail> {
    let input = r#"{"client":0,"proc":"transfer","args":[0,1,30]}
{"client":1,"proc":"transfer","args":[1,0,90]}
{"client":0,"proc""#;
    let wanted = r#"{"call":0,"committed":[70]}
{"call":1,"aborted":"underflow"}
"#;
    let scenario = read_scenario(rt.alloc(), &mut Plain::new(BANK.as_bytes()))?;
    let mut output = Vec::new(rt.alloc());
    let mut writer = Plain::new(&mut output);
    let mut reader = Plain::new(Broken(input.as_bytes()));
    let ended = serve_stream(&rt, rt.alloc(), scenario, &mut reader, &mut writer);
    equal(&rt, ended, Err(StreamFault::Read));
    equal(&rt, std::str::from_utf8(output.as_slice())?, wanted);
    Ok(())
}

// A writer that takes as many bytes as it has room for, and fails then.
#[derive(Drop)]
struct Narrow {
    taken: Vec<u8>,
    room: usize,
}

impl io::Write for Narrow {
    fn write(&mut self, buf: &[u8]) -> io::Result<usize> {
        let count = self.room.min(buf.len());
        if count == 0 || self.taken.extend_from_slice(&buf[..count]).is_err() {
            return Err(closed());
        }
        self.room -= count;
        Ok(count)
    }

    fn flush(&mut self) -> io::Result<()> {
        Ok(())
    }
}

#[test]
fn output_that_fails_has_a_beginning(rt: HostRuntime) -> Result<(), Fail> {
    let input = transfers(rt.alloc(), 10)?;
    let whole = served(&rt, rt.alloc(), input.as_str())?;
    for room in [0, 1, 60, whole.len().saturating_sub(1)] {
        let scenario = read_scenario(rt.alloc(), &mut Plain::new(BANK.as_bytes()))?;
        let mut narrow = Narrow {
            taken: Vec::new(rt.alloc()),
            room,
        };
        let mut writer = Plain::new(&mut narrow);
        let mut reader = Plain::new(slow(input.as_str()));
        let ended = serve_stream(&rt, rt.alloc(), scenario, &mut reader, &mut writer);
        equal(&rt, ended, Err(StreamFault::Write));
        equal(&rt, narrow.taken.len(), room);
        equal(&rt, whole.starts_with(narrow.taken.as_slice()), true);
    }
    Ok(())
}

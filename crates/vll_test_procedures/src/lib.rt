//! The procedures that the tests of several crates call, and scenarios from JSON text for such tests. `library` makes a
//! checked library of eight small procedures for any number of records from 1, `parts_with` reads the parts of a
//! scenario of these procedures, and `parts` those of any scenario that a test writes as text. The crate proves that a
//! library is for the number of records asked for, and that the library of a scenario makes each call of its scripts.
//! Start at `library` and `parts_with`.
//!
//! ```rattle
//! let library = library(rt.alloc(), 2)?;
//! let procedure = library.proc(0);
//! let parts = parts(rt.alloc(), text.as_str())?;
//! let scripts = parts.scripts.as_slice();
//! ```
#![tactic(auto)]

ghost use Rattle.std.specs.Prelude.{◌≡◌, All, IfOk, length};
ghost use Rattle.vll_check.specs.Calls.{Fits};

use std::alloc::{AllocError, Global};
use std::test::Fail;
use vll_check::Library;
use vll_scenario::{Plain, ScenarioParts, read_scenario};

// The procedures of `library`, up to a scenario's other members.
const PROCEDURES: &str = r#"{"version":2,"procs":[
 {"name":"transfer","args":3,"keys":[["write","arg",0],["write","arg",1]],
  "body":[["set",0,["sub",["key",0],["arg",2]]],
          ["set",1,["add",["key",1],["arg",2]]],["reply",["key",0]]]},
 {"name":"bump","args":1,"keys":[["write","arg",0]],
  "body":[["set",0,["add",["key",0],1]],["reply",["key",0]]]},
 {"name":"sum2","args":2,"keys":[["read","arg",0],["read","arg",1]],
  "body":[["reply",["add",["key",0],["key",1]]]]},
 {"name":"read","args":1,"keys":[["read","arg",0]],
  "body":[["reply",["key",0]]]},
 {"name":"take","args":2,"keys":[["write","arg",0]],
  "body":[["if",["less",["key",0],["arg",1]],[["abort",7]],[]],
          ["set",0,["sub",["key",0],["arg",1]]],["reply",["key",0]]]},
 {"name":"seven","args":0,"keys":[],
  "body":[["reply",7]]},
 {"name":"via","args":1,"keys":[["read","arg",0],["write","through",0]],
  "body":[["set",1,["add",["key",1],1]],["reply",["key",1]]]},
 {"name":"grow","args":2,"keys":[["write","arg",0]],
  "body":[["repeat",3,[["set",0,["add",["key",0],["arg",1]]]]],["reply",["key",0]]]}],
 "#;

/// Returns the parts of the scenario that `text` describes. Fails if `read_scenario` refuses the text.
pub fn parts(alloc: Global, text: &str) -> Result<ScenarioParts, Fail>
    ensures records { IfOk result (λ p. p.library.records ≡ length p.records.items) }
    ensures fits { IfOk result (λ p. All (λ script. All (Fits p.library) script.items) p.scripts.items) }
{
    let mut reader = Plain::new(text.as_bytes());
    let scenario = read_scenario(alloc, &mut reader)?;
    Ok(scenario.into_parts())
}

/// Returns the parts of a scenario with the procedures of `library`. `members` are its other members, as in JSON:
/// `"records":[0],"clients":[[{"proc":"bump","args":[0]}]]`.
pub fn parts_with(alloc: Global, members: &str) -> Result<ScenarioParts, Fail>
    ensures records { IfOk result (λ p. p.library.records ≡ length p.records.items) }
    ensures fits { IfOk result (λ p. All (λ script. All (Fits p.library) script.items) p.scripts.items) }
{
    let text = format!(in alloc; "{PROCEDURES}{members}}}")?;
    parts(alloc, text.as_str())
}

/// Returns a library for `records` records, at least 1. Its procedures are, in order: `transfer` of an amount from one
/// record to another, which replies what is left; `bump`, which adds 1 to a record and replies the sum; `sum2`, which
/// replies the sum of two records; `read`, which replies a record; `take` of an amount from a record, which replies
/// what is left, and aborts with code 7 if there is less; `seven`, which replies 7; `via`, which adds 1 to the record
/// that another record's value leads to, and replies the sum; and `grow`, which adds a number to a record three times,
/// and replies the sum.
pub fn library(alloc: Global, records: u32) -> Result<Library, Fail>
    ensures { IfOk result (λ l. l.records ≡ records) }
{
    let members = members_for(alloc, records)?;
    let parts = parts_with(alloc, members.as_str())?;
    let library = parts.library;
    if library.records() != records {
        return Err(Fail::new("another number of records"));
    }
    Ok(library)
}

// The members of a scenario with `records` records, each of which holds 0, and without clients.
fn members_for(alloc: Global, records: u32) -> Result<String, AllocError> {
    let mut text = String::from_str(alloc, "\"clients\":[],\"records\":[")?;
    for _ in 1..records {
        text.push_str("0,")?;
    }
    text.push_str("0]")?;
    Ok(text)
}

//! Tests of the answers to lines, as text.
use crate::asserts::equal;
use std::alloc::{AllocError, Global};
use std::process::Abort;
use std::test::Fail;
use vll_check::Library;
use vll_lines::{
    Asked, Counts, LineReader, Rounds, push_counts, push_end, push_fault, push_records, push_reply,
};
use vll_proc::{Reason, Reply};
use vll_test_procedures::library;

// The answer to a line of one of two clients, where a call has the number 12 and is aborted, counts are of so many calls
// before, and these are the records.
fn answer(alloc: Global, library: &Library, line: &str) -> Result<Vec<u8>, AllocError> {
    let request = LineReader::new(alloc).read(library, 2, line.as_bytes())?;
    let out = Vec::new(alloc);
    let counts = Counts {
        calls: 15,
        code: 5,
        overflow: 4,
        underflow: 3,
        zero_divisor: 2,
        moved: 1,
    };
    let so_far = Rounds {
        rounds: 7,
        most_lines: 40,
    };
    match &request.asked {
        Ok(Asked::Call(_)) => {
            push_reply(out, &request.id, 12, &Reply::Aborted(Reason::Underflow))
        }
        Ok(Asked::Counts) => push_counts(out, &request.id, counts, so_far),
        Ok(Asked::Records(range)) => {
            let records = [100, 101, 102, 103, 104, 105, 106, u64::MAX];
            push_records(out, &request.id, *range, records.as_slice())
        }
        Err(why) => push_fault(alloc, out, &request.id, why),
    }
}

const OBJECT: &str =
    r#"{"fault":"the line has to be an object with proc, args and perhaps client and id"}"#;

const ID: &str = r#"{"fault":"id has to be a whole number or a text of at most 64 bytes"}"#;

const COUNTS: &str = r#"{"fault":"counts has to be true"}"#;

// Asserts what the answer to each line is, over so many records.
fn check<R: Abort + AllocGlobal>(rt: &R, records: u32, rows: &[(&str, &str)]) -> Result<(), Fail> {
    let library = library(rt.alloc(), records)?;
    for row in rows {
        let (line, wanted) = *row;
        let found = answer(rt.alloc(), &library, line)?;
        let text = std::str::from_utf8(found.as_slice())?;
        equal(rt, text.trim_end(), wanted);
    }
    Ok(())
}

#[test]
fn line_has_its_call(rt: HostRuntime) -> Result<(), Fail> {
    let rows = [
        (
            r#"{"client":0,"proc":"transfer","args":[0,1,30]}"#,
            r#"{"call":12,"aborted":"underflow"}"#,
        ),
        (
            r#" { "args" : [ 7 ] , "id" : 7 , "proc" : "bump" , "client" : 1 } "#,
            r#"{"id":7,"call":12,"aborted":"underflow"}"#,
        ),
        (
            r#"{"id":"a\"\u00e9","client":0,"proc":"seven","args":[]}"#,
            r#"{"id":"a\"é","call":12,"aborted":"underflow"}"#,
        ),
        (
            r#"{"proc":"seven","args":[]}"#,
            r#"{"call":12,"aborted":"underflow"}"#,
        ),
        (
            r#"{"id":18446744073709551615,"client":0,"proc":"seven","args":[]}"#,
            r#"{"id":18446744073709551615,"call":12,"aborted":"underflow"}"#,
        ),
        // the last member of a name counts, escapes in a name are read
        (
            r#"{"client":9,"args":[1],"cl\u0069ent":1,"proc":"seven","args":[]}"#,
            r#"{"call":12,"aborted":"underflow"}"#,
        ),
        (
            r#"{"client":"a","client":1,"proc":[1e3],"proc":"seven","args":[]}"#,
            r#"{"call":12,"aborted":"underflow"}"#,
        ),
    ];
    check(&rt, 8, rows.as_slice())
}

#[test]
fn line_has_its_counts(rt: HostRuntime) -> Result<(), Fail> {
    let rows = [
        (
            r#"{"counts":true}"#,
            r#"{"counts":{"calls":15,"aborted":{"code":5,"overflow":4,"underflow":3,"zero divisor":2,"moved":1},"rounds":7,"most_lines":40}}"#,
        ),
        (
            r#" { "counts" : true , "id" : "a" } "#,
            r#"{"id":"a","counts":{"calls":15,"aborted":{"code":5,"overflow":4,"underflow":3,"zero divisor":2,"moved":1},"rounds":7,"most_lines":40}}"#,
        ),
        // the last member of a name counts, escapes in a name are read
        (
            r#"{"counts":1,"id":7,"co\u0075nts":true}"#,
            r#"{"id":7,"counts":{"calls":15,"aborted":{"code":5,"overflow":4,"underflow":3,"zero divisor":2,"moved":1},"rounds":7,"most_lines":40}}"#,
        ),
    ];
    check(&rt, 8, rows.as_slice())
}

#[test]
fn line_has_its_records(rt: HostRuntime) -> Result<(), Fail> {
    let rows = [
        (
            r#"{"records":[0,8]}"#,
            r#"{"records":[100,101,102,103,104,105,106,18446744073709551615]}"#,
        ),
        (r#"{"records":[3,1]}"#, r#"{"records":[103]}"#),
        (
            r#" { "records" : [ 5 , 2 ] , "id" : "a" } "#,
            r#"{"id":"a","records":[105,106]}"#,
        ),
        // there may be none, also behind the last record
        (r#"{"records":[0,0]}"#, r#"{"records":[]}"#),
        (r#"{"id":7,"records":[8,0]}"#, r#"{"id":7,"records":[]}"#),
        // the last member of a name counts, escapes in a name are read
        (
            r#"{"records":7,"id":7,"rec\u006frds":[7,1]}"#,
            r#"{"id":7,"records":[18446744073709551615]}"#,
        ),
    ];
    check(&rt, 8, rows.as_slice())
}

#[test]
fn line_asks_for_records_that_there_are(rt: HostRuntime) -> Result<(), Fail> {
    let form =
        r#"{"fault":"records has to be a list of two whole numbers, the first record and how many"}"#;
    let range =
        r#"{"fault":"records has to ask for at most 1024 records, all of which there are"}"#;
    let rows = [
        (r#"{"records":7}"#, form),
        (r#"{"records":true}"#, form),
        (r#"{"records":[]}"#, form),
        (r#"{"records":[0]}"#, form),
        (r#"{"records":[0,1,2]}"#, form),
        (r#"{"records":[0,1.5]}"#, form),
        (r#"{"records":[-1,1]}"#, form),
        (r#"{"records":["0",1]}"#, form),
        (r#"{"records":[18446744073709551616,0]}"#, form),
        (r#"{"records":[0,1025]}"#, range),
        (r#"{"records":[1999,2]}"#, range),
        (r#"{"records":[2001,0]}"#, range),
        (r#"{"records":[18446744073709551615,1]}"#, range),
        (r#"{"records":[1,18446744073709551615]}"#, range),
        (r#"{"records":[0,1],"client":0}"#, OBJECT),
        (r#"{"records":[0,1],"counts":true}"#, OBJECT),
        (r#"{"id":-1,"records":[0,1]}"#, ID),
    ];
    check(&rt, 2_000, rows.as_slice())
}

#[test]
fn line_has_its_fault(rt: HostRuntime) -> Result<(), Fail> {
    let rows = [
        ("", r#"{"fault":"the line is empty"}"#),
        (" ", r#"{"fault":"no JSON text: column 1"}"#),
        (r#"{"client":0,}"#, r#"{"fault":"no JSON text: column 13"}"#),
        ("[]", OBJECT),
        (r#"{"id":-1,"client":0,"proc":"seven","args":[]}"#, ID),
        (
            r#"{"id":5,"client":0,"proc":"seven","args":[],"more":1}"#,
            r#"{"id":5,"fault":"the line has to be an object with proc, args and perhaps client and id"}"#,
        ),
        (
            r#"{"id":5,"counts":true,"proc":"seven","args":[]}"#,
            r#"{"id":5,"fault":"the line has to be an object with proc, args and perhaps client and id"}"#,
        ),
        (r#"{"counts":false,"client":1}"#, OBJECT),
        (r#"{"id":-1,"counts":true}"#, ID),
        (
            r#"{"id":5,"counts":false}"#,
            r#"{"id":5,"fault":"counts has to be true"}"#,
        ),
        (r#"{"counts":null}"#, COUNTS),
        (r#"{"counts":1}"#, COUNTS),
        (r#"{"counts":"true"}"#, COUNTS),
        (r#"{"counts":true,"counts":[true]}"#, COUNTS),
        (
            r#"{"id":5,"client":4294967296,"proc":"seven","args":[]}"#,
            r#"{"id":5,"fault":"client has to be the number of a client"}"#,
        ),
        (
            r#"{"id":5,"client":2,"proc":"seven","args":[]}"#,
            r#"{"id":5,"fault":"there is no client 2"}"#,
        ),
        (
            r#"{"id":5,"client":1,"proc":7,"args":[]}"#,
            r#"{"id":5,"fault":"proc has to be the name of a procedure"}"#,
        ),
        (
            r#"{"id":5,"client":1,"proc":"seven","args":7}"#,
            r#"{"id":5,"fault":"args has to be a list of whole numbers"}"#,
        ),
        (
            r#"{"id":5,"client":1,"proc":"seven","args":[1.0]}"#,
            r#"{"id":5,"fault":"argument 0 has to be a whole number of 64 bits without a sign"}"#,
        ),
        (
            r#"{"id":5,"client":1,"proc":"bump","args":[7,-0,[]]}"#,
            r#"{"id":5,"fault":"argument 1 has to be a whole number of 64 bits without a sign"}"#,
        ),
        (
            r#"{"id":5,"client":1,"proc":"bump","args":[18446744073709551616]}"#,
            r#"{"id":5,"fault":"argument 0 has to be a whole number of 64 bits without a sign"}"#,
        ),
        (
            r#"{"id":5,"client":1,"proc":"bump","args":[0]}]"#,
            r#"{"fault":"no JSON text: column 45"}"#,
        ),
        (
            r#"{"id":5,"client":1,"proc":"eight\n","args":[]}"#,
            r#"{"id":5,"fault":"no procedure has the name eight\n"}"#,
        ),
        (
            r#"{"client":1,"proc":"éé34567890123456789012345678901234567890","args":[]}"#,
            r#"{"fault":"no procedure has the name éé34567890123456789012345678901234567890"}"#,
        ),
        (
            r#"{"client":1,"proc":"éé34567890123456789012345678901234567890é","args":[]}"#,
            r#"{"fault":"no procedure has the name éé34567890123456789012345678901234567890.."}"#,
        ),
        (
            r#"{"id":5,"client":1,"proc":"bump","args":[]}"#,
            r#"{"id":5,"fault":"the number of arguments has to be 1"}"#,
        ),
        (
            r#"{"id":5,"client":1,"proc":"transfer","args":[0,7]}"#,
            r#"{"id":5,"fault":"the number of arguments has to be 3"}"#,
        ),
        (
            r#"{"id":5,"client":1,"proc":"transfer","args":[0,9,30]}"#,
            r#"{"id":5,"fault":"argument 1 has to be the number of a record"}"#,
        ),
        (
            r#"{"id":5,"client":1,"proc":"bump","args":[8]}"#,
            r#"{"id":5,"fault":"argument 0 has to be the number of a record"}"#,
        ),
    ];
    check(&rt, 8, rows.as_slice())
}

#[test]
fn calls_are_counted_by_their_replies(rt: HostRuntime) -> Result<(), Fail> {
    let mut counts = Counts::none();
    for why in [
        Reason::Code(0),
        Reason::Code(7),
        Reason::Overflow,
        Reason::Underflow,
        Reason::ZeroDivisor,
        Reason::Moved,
        Reason::Code(7),
        Reason::Moved,
    ] {
        assert!(&rt; !counts.is_full());
        counts = counts.with(&Reply::Aborted(why));
    }
    let wanted = Counts {
        calls: 8,
        code: 3,
        overflow: 1,
        underflow: 1,
        zero_divisor: 1,
        moved: 2,
    };
    equal(&rt, counts, wanted);
    Ok(())
}

#[test]
fn end_has_the_records(rt: HostRuntime) -> Result<(), Fail> {
    for (records, wanted) in [
        ([].as_slice(), "{\"calls\":5,\"records\":[]}\n"),
        ([70, 0].as_slice(), "{\"calls\":5,\"records\":[70,0]}\n"),
    ] {
        let found = push_end(Vec::new(rt.alloc()), 5, records)?;
        equal(&rt, std::str::from_utf8(found.as_slice())?, wanted);
    }
    Ok(())
}

//! Tests of a core, event by event.
use crate::played::run;
use std::test::Fail;

// Each of `bump`'s calls claims a record for writing, so a counter goes up by 4294967296.
const TWO_CLIENTS: &str = r#""records":[5],"cap":8,"limit":2,"bits":64,"clients":[
 [{"proc":"bump","args":[0]},{"proc":"bump","args":[0]}],[{"proc":"bump","args":[0]}]]"#;

#[test]
fn refused_event_changes_nothing(rt: HostRuntime) -> Result<(), Fail> {
    run(
        &rt,
        TWO_CLIENTS,
        "enter 2: refused no call; claim: refused no turn; admit: refused no turn; front: refused idle
         scan: refused idle; load 0: refused not running; store 0: refused not running
         release 0: refused not running; finish 0: refused not running
         enter 0: opened
         enter 0: refused turn open; enter 2: refused turn open; admit: refused out of step
         front: refused turn open; scan: refused turn open; load 0: refused not running
         store 0: refused not running; release 0: refused not running; finish 0: refused turn open
         claim: claimed 0 granted
         enter 1: refused turn open; claim: refused out of step; front: refused turn open
         scan: refused turn open; load 0: refused not running; finish 0: refused turn open
         admit: free 0
         claim: refused no turn; admit: refused no turn; front: refused idle; scan: refused idle
         store 0: refused out of step; release 0: refused out of step; finish 0: refused out of step
         load 1: refused not running
         load 0: loaded 5; enter 1: opened; claim: claimed 4294967296 denied
         load 0: refused out of step; release 0: refused out of step; finish 0: refused turn open
         load 1: refused not running
         admit: blocked 1
         enter 0: refused spent; enter 1: refused no call; enter 2: refused no call
         front: refused idle; scan: refused idle; finish 0: refused out of step
         load 1: refused not running; store 1: refused not running; release 1: refused not running
         finish 1: refused not running; load 2: refused not running
         store 0: stored
         load 0: refused out of step; store 0: refused out of step; finish 0: refused out of step
         front: refused idle; scan: refused idle
         release 0: released 8589934592
         load 0: refused out of step; store 0: refused out of step; release 0: refused out of step
         front: refused idle; scan: refused idle
         finish 0: replied committed 6
         load 0: refused not running; store 0: refused not running; release 0: refused not running
         finish 0: refused not running; load 1: refused not running; enter 0: refused spent
         front: run 1
         front: refused idle; scan: refused idle; store 1: refused out of step
         release 1: refused out of step; finish 1: refused out of step
         load 1: loaded 6; store 1: stored; release 1: released 4294967296; finish 1: replied committed 7
         stands: call 0 client 0 committed 6, call 1 client 1 committed 7, words 0 7 0",
    )
}

// A call waits that could start, and the cap is reached in between.
#[test]
fn refused_event_starts_no_call(rt: HostRuntime) -> Result<(), Fail> {
    run(
        &rt,
        r#""records":[0,0],"cap":2,"limit":4,"bits":64,"clients":[
         [{"proc":"bump","args":[0]},{"proc":"bump","args":[0]},{"proc":"bump","args":[0]}],[{"proc":"bump","args":[1]}]]"#,
        "enter 0: opened; claim: claimed 0 granted; admit: free 0
         enter 0: opened; claim: claimed 4294967296 denied; admit: blocked 1
         enter 0: opened; claim: claimed 8589934592 denied; admit: blocked 2
         enter 1: refused busy; enter 0: refused no call
         load 0: loaded 0; store 0: stored; release 0: released 12884901888; finish 0: replied committed 1
         front: run 1; load 1: loaded 1; store 1: stored; release 1: released 8589934592; finish 1: replied committed 2
         enter 1: opened; front: refused turn open; scan: refused turn open; load 2: refused not running
         finish 2: refused turn open; claim: claimed 0 granted; front: refused turn open; scan: refused turn open
         admit: free 3; scan: run 2; counts: 2 0; drain: 8
         stands: call 0 client 0 committed 1, call 1 client 0 committed 2, call 2 client 0 committed 3, call 3 client 1 committed 1, words 0 3 0 1 0",
    )
}

// Claims are in rising order of records, whatever the order of the keys, and a record that several keys name is claimed
// once.
#[test]
fn steps_go_over_the_claims_in_rising_order_of_records(rt: HostRuntime) -> Result<(), Fail> {
    run(
        &rt,
        r#""records":[50,60,100],"cap":8,"limit":3,"bits":64,"clients":[[
         {"proc":"transfer","args":[2,0,30]},{"proc":"sum2","args":[2,0]},{"proc":"transfer","args":[1,1,5]}]]"#,
        "enter 0: opened; claim: claimed 0 granted; claim: claimed 0 granted; claim: refused out of step
         admit: free 0; load 0: loaded 50; load 0: loaded 100; store 0: stored
         words: 0 80 4294967296 60 0 100 4294967296
         store 0: stored; store 0: refused out of step; release 0: released 4294967296
         words: 0 80 0 60 0 70 4294967296
         release 0: released 4294967296; finish 0: replied committed 70
         enter 0: opened; claim: claimed 0 granted; claim: claimed 0 granted; admit: free 1
         enter 0: opened; claim: claimed 0 granted; claim: refused out of step; admit: free 2
         load 1: loaded 80; load 1: loaded 70; store 1: refused out of step
         release 1: released 1; release 1: released 1
         load 2: loaded 60; store 2: stored; release 2: released 4294967296
         finish 2: replied committed 60; finish 1: replied committed 150
         stands: call 0 client 0 committed 70, call 1 client 0 committed 150, call 2 client 0 committed 60, words 0 80 0 60 0 70 0",
    )
}

// Ticket 0 runs and has four steps left; each of the two that wait needs Front as well.
#[test]
fn waiting_calls_are_brought_to_their_ends(rt: HostRuntime) -> Result<(), Fail> {
    run(
        &rt,
        r#""records":[0,0],"cap":8,"limit":3,"bits":64,"clients":[[
         {"proc":"bump","args":[0]},{"proc":"transfer","args":[0,1,0]},{"proc":"bump","args":[1]}]]"#,
        "enter 0: opened; claim: claimed 0 granted; admit: free 0
         enter 0: opened; claim: claimed 4294967296 denied; claim: claimed 0 granted; admit: blocked 1
         enter 0: opened; claim: claimed 4294967296 denied; admit: blocked 2
         front: refused idle; scan: refused idle; counts: 1 2; drain: 17; counts: 0 0
         stands: call 0 client 0 committed 1, call 1 client 0 committed 1, call 2 client 0 committed 1, words 0 1 0 1 0
         drain: 0",
    )
}

#[test]
fn open_turn_is_closed(rt: HostRuntime) -> Result<(), Fail> {
    run(
        &rt,
        r#""records":[0],"cap":8,"limit":1,"bits":64,"clients":[[{"proc":"bump","args":[0]}]]"#,
        "drain: 0; enter 0: opened; drain: 6; stands: call 0 client 0 committed 1, words 0 1 0",
    )
}

// Ticket 0 has one release and its Finish left; the call of the open turn has one request left, then Admit, Front, a
// load, a release and its Finish, and no store, since it aborts.
#[test]
fn drain_goes_on_from_the_middle_of_steps(rt: HostRuntime) -> Result<(), Fail> {
    run(
        &rt,
        r#""records":[10,20],"cap":8,"limit":2,"bits":64,"clients":[
         [{"proc":"transfer","args":[0,1,5]}],[{"proc":"take","args":[0,6]}]]"#,
        "enter 0: opened; claim: claimed 0 granted; claim: claimed 0 granted; admit: free 0
         load 0: loaded 10; load 0: loaded 20; store 0: stored; store 0: stored
         enter 1: opened; claim: claimed 4294967296 denied; release 0: released 8589934592; drain: 7
         stands: call 0 client 0 committed 5, call 1 client 1 aborted code 7, words 0 5 0 25 0",
    )
}

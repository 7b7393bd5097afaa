//! Scenarios for the tests, and what they print.

/// A transfer, and then a read of both records.
pub(crate) const TRANSFER: &str = r#"{"version":1,"records":[100,50],
 "procs":[
  {"name":"transfer","args":3,"keys":[["write","arg",0],["write","arg",1]],
   "body":[["set",0,["sub",["key",0],["arg",2]]],
           ["set",1,["add",["key",1],["arg",2]]],["reply",["key",0]]]},
  {"name":"sum2","args":2,"keys":[["read","arg",0],["read","arg",1]],
   "body":[["reply",["add",["key",0],["key",1]]]]}],
 "clients":[[{"proc":"transfer","args":[0,1,30]},{"proc":"sum2","args":[0,1]}]]}"#;

/// What a run of it prints: 109 bytes.
pub(crate) const TRANSFER_TEXT: &str =
    "call 0 client 0 committed 70\ncall 1 client 0 committed 150\nrecord 0 value 70 pair 0\nrecord 1 value 80 pair 0\n";

/// Two calls of one client on one record. The second is blocked, and runs once the first is gone.
pub(crate) const BLOCKED: &str = r#"{"version":1,"records":[0],
 "procs":[{"name":"bump","args":1,"keys":[["write","arg",0]],
   "body":[["set",0,["add",["key",0],1]],["reply",["key",0]]]}],
 "clients":[[{"proc":"bump","args":[0]},{"proc":"bump","args":[0]}]],
 "cap":8,"bits":64,"hash":"modulo",
 "schedule":[["enter",0],["claim"],["admit"],["enter",0],["claim"],["admit"],["front"],
  ["load",0],["store",0],["release",0],["finish",0],
  ["front"],["load",1],["store",1],["release",1],["finish",1]]}"#;

/// What a replay of it prints: 324 bytes.
pub(crate) const BLOCKED_TEXT: &str =
    "0 opened\n1 claimed 0 granted\n2 free 0\n3 opened\n4 claimed 4294967296 denied\n5 blocked 1\n6 refused idle\n7 loaded 0\n8 stored\n9 released 8589934592\n10 replied committed 1\n11 run 1\n12 loaded 1\n13 stored\n14 released 4294967296\n15 replied committed 2\ncall 0 client 0 committed 1\ncall 1 client 0 committed 2\nrecord 0 value 2 pair 0\n";

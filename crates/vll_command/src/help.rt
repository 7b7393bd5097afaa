//! The texts of the help.

pub(crate) const EXAMPLES: &str = "Examples:
  vll run scenario.json
  vll run --workers 8 --cap 64 < scenario.json
  vll serve scenario.json < calls
  vll replay scenario.json
  vll explain scenario.json
  vll draw scenario.json > page.html
  vll trace scenario.json > traced.json

docs/SCENARIO.md describes the format of a scenario, and what is printed.";

pub(crate) const RUN_EXAMPLES: &str = "Examples:
  vll run scenario.json
  vll run --workers 8 --cap 64 < scenario.json

A smaller --cap can be faster if many calls need the same few records: fewer calls wait, so scans are shorter,
and fewer open claims hold later calls back. In return, a call that finds the cap reached is refused and tried
again later. No option changes which outcomes are lawful.

docs/SCENARIO.md describes the format of a scenario, and what is printed.";

pub(crate) const SERVE_EXAMPLES: &str = "Examples:
  vll serve scenario.json < calls
  vll serve --cap 64 scenario.json < calls

Each line of standard input asks for a call, and each line of standard output answers one:
  {\"id\":7,\"client\":0,\"proc\":\"transfer\",\"args\":[0,1,30]}
  {\"id\":7,\"call\":0,\"committed\":[70]}

docs/SERVICE.md describes the lines, and docs/SCENARIO.md the scenario.";

pub(crate) const FILE: &str = "The scenario [default: that on standard input]";

pub(crate) const SERVE_FILE: &str =
    "The scenario: its records, its procedures, and as many clients as it has scripts, all of which are empty";

pub(crate) const REPLAY_EXAMPLE: &str = "Example:
  vll replay scenario.json

docs/SCENARIO.md describes the format of a scenario with its schedule, and what is printed.";

pub(crate) const EXPLAIN_EXAMPLE: &str = "Example:
  vll explain scenario.json

For a scenario that run refuses, it prints the same line, where the mistake is, and what is wrong there. For a valid
scenario it prints ok and a summary. The exit status is that of run for a refused scenario, otherwise 0.

docs/SCENARIO.md describes the format of a scenario, and what is printed.";

pub(crate) const DRAW_EXAMPLES: &str = "Examples:
  vll draw scenario.json > page.html
  vll draw --from 1000 --count 100 < scenario.json > page.html

docs/SCENARIO.md describes the format of a scenario with its schedule, and the page.";

pub(crate) const TRACE_EXAMPLES: &str = "Examples:
  vll trace scenario.json > traced.json
  vll trace --workers 8 scenario.json | vll draw > page.html

It runs the scenario as run does, and prints the scenario with the steps of this run as its schedule. A replay of it
takes each of these steps, and ends with the tickets, replies and records of this run.

docs/SCENARIO.md describes the format of a scenario, and the schedule.";

pub(crate) const FROM: &str = "The number of the first event to draw, 0 to 1048576";

pub(crate) const COUNT: &str = "The maximum number of events to draw, 1 to 3600";

pub(crate) const WORKERS: &str = "Threads that make the calls, 1 to 64";

pub(crate) const CAP: &str =
    "Calls that may wait at a time, 1 to 65536 [default: the scenario's cap]";

pub(crate) const BITS: &str =
    "Places of the contention analysis, 1 to 1048576 [default: the scenario's bits]";

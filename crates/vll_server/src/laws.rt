//! The text of a served scenario.
ghost use Rattle.std.specs.Prelude.{◌≡◌};
ghost use Rattle.vll_counters.specs.Headline.Views.{calls_in};
ghost use Rattle.vll_queue.specs.declared.closed.Closed.{Closed};
ghost use Rattle.vll_scenario.specs.Headline.Setup.{Setup};
ghost use Rattle.vll_server.specs.Headline.Serve.{IsServed};
ghost use Rattle.vll_server.specs.Headline.Text.{closed_text};
ghost use Rattle.vll_server.specs.Text.{serial_text};

/// The text of what a run of a scenario leaves is the text of its journal's calls, run one at a time.
#[tactic(auto, using(crate::proofs::Served::served_text))]
pub fn served_texts_are_serial()
    ensures { (s : Setup) (c : Closed) → IsServed s c
        → closed_text c ≡ serial_text s.procs s.records (calls_in c.journal.items) }
{}

//! Strict serializability, as far as threads pass news: the contract of a function that does nothing.
ghost use Rattle.std.specs.Prelude.{ℕ};
ghost use Rattle.vll_counters.specs.declared.views.SessionView.{SessionView};
ghost use Rattle.vll_counters.specs.Headline.Views.{Begins};
ghost use Rattle.vll_proc.specs.declared.call.Call.{Call};
ghost use Rattle.vll_queue.specs.Headline.News.{NewsOrdersEntries};
ghost use Rattle.vll_queue.specs.News.{NewsOrdersCalls};
ghost use Rattle.vll_queue.specs.Headline.Sessions.{SawOwn};
ghost use Rattle.vll_queue.specs.Sessions.{SawOthers};

/// Strict serializability, as far as threads pass news: if one session has entered a call, or made it from entry to
/// reply, and another session that has heard of it enters a call, then the first call comes before the second in the
/// order in which calls enter and run. The news may go through any chain of sessions: what a session has seen later, or
/// has heard, extends what it had seen.
pub fn news_orders_calls()
    ensures entries { NewsOrdersEntries }
    ensures calls { NewsOrdersCalls }
    ensures others { (old new : SessionView) → SawOthers old new → Begins old.seen new.seen }
    ensures own { (old new : SessionView) (call : Call) (t : ℕ) → SawOwn old new call t → Begins old.seen new.seen }
{}

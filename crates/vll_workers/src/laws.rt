//! Laws of what a run leaves in the journal and in its tokens' sessions, once the engine is closed with these.
ghost use Rattle.std.specs.Prelude.{◌≡◌, ◌<◌, ℕ, All, List, Some, length, slice_get, sum_by};
ghost use Rattle.vll_proc.specs.declared.call.Call.{Call};
ghost use Rattle.vll_counters.specs.Headline.Views.{calls_in};
ghost use Rattle.vll_queue.specs.declared.closed.Closed.{Closed};
ghost use Rattle.vll_queue.specs.Shown.{Named, library_of};
ghost use Rattle.vll_workers.specs.Headline.Merge.{IsMerge};
ghost use Rattle.vll_workers.specs.Merge.{AreForScripts, HasFound, IsClosedWith};
ghost use Rattle.vll_tokens.specs.Shown.{TokenShown};
ghost use Rattle.vll_tokens.specs.Tokens.{AreBack, AreFit, IsOf, IsThrough, OneIsSpent, calls_between};

/// For an engine with any hash and any number of clients: if a run was passed a token for each client's script, its
/// tokens are back with every call entered, and the engine was closed with their sessions, then the journal merges the
/// scripts.
pub fn journals_merge_the_scripts()
    ensures { (e : Named) (scripts : List (List Call)) (handed back : List TokenShown) (closed : Closed)
        → AreForScripts e scripts handed → AreBack handed back → All IsThrough back → IsClosedWith e back closed
        → IsMerge (library_of e) (calls_in closed.journal.items) scripts }
{}

/// If one of the tokens is spent instead, the scripts have more calls than the engine's limit.
pub fn spent_engines_took_fewer_calls()
    ensures { (e : Named) (scripts : List (List Call)) (handed back : List TokenShown) (closed : Closed)
        → AreForScripts e scripts handed → AreBack handed back → OneIsSpent e.config.limit back → IsClosedWith e back closed
        → e.config.limit < sum_by length scripts }
{}

/// By any run of any engine that was closed with it, a token's session gains the calls of the token's script that have
/// entered since it was passed in. Each of these is as it stands in the script, with the value found if it has an
/// indirect key.
pub fn sessions_gain_found_calls()
    ensures { (e : Named) (handed back : List TokenShown) (closed : Closed) → AreFit e handed → IsClosedWith e back closed
        → (i : ℕ) (t : TokenShown) → slice_get back i ≡ Some t → (of : IsOf handed t)
        → HasFound (library_of e) of.old.session.session t.session.session (calls_between of.old.next t.next of.old.script) }
{}

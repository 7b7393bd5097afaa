//! Laws that hold between any two atomic steps, as the rule does, each the contract of a function that does nothing.
ghost use Rattle.vll_counters.specs.Laws.{TicketsAreClear, PassesAreClear, RunningTicketsHaveAPass, PassesAreOfRunningTickets, TicketsHaveOnePass, GivenTicketsRun, TicketsGetOnePass, ClientsHaveOneSession, PairWordsCountOpenClaims, PastsAreOfOneRun, OnePastBeginsTheOther, LongerPastHasBoth};

/// A ticket that is running or gone is clear: no claim that a lower ticket has requested and not released conflicts
/// with a claim of its own.
pub fn tickets_are_clear()
    ensures { TicketsAreClear }
{}

/// The ticket of a pass is clear for as long as a seat has the pass.
pub fn passes_are_clear()
    ensures { PassesAreClear }
{}

/// Each running ticket has exactly one pass, and every other ticket has none.
pub fn tickets_have_one_pass()
    ensures running { RunningTicketsHaveAPass }
    ensures other { PassesAreOfRunningTickets }
    ensures one { TicketsHaveOnePass }
{}

/// A ticket gets at most one pass, ever. With its pass it runs, and a ticket that runs or has finished never again meets
/// what `Words::give_pass` requires, whichever functions of the words are called afterwards with the queue's seat.
pub fn tickets_get_one_pass()
    ensures runs { GivenTicketsRun }
    ensures once { TicketsGetOnePass }
{}

/// Each client has at most one session, at its own seat or at the queue's.
pub fn clients_have_one_session()
    ensures { ClientsHaveOneSession }
{}

/// Each pair word is the sum of 2^32 for each Write claim and 1 for each Read claim on its record, over the claims that
/// the open turn has requested, all claims of the waiting calls, and the claims that each pass has not released.
pub fn pair_words_count_open_claims()
    ensures { PairWordsCountOpenClaims }
{}

/// One history of writes leads from the opening words to the present ones, and the past of each seat is a beginning of
/// it. So the answers of all steps are of one run: those of `Words::request`, `Words::release` and `Words::find` are
/// what the past of their seat had left in the word.
pub fn pasts_are_of_one_run()
    ensures history { PastsAreOfOneRun }
    ensures order { OnePastBeginsTheOther }
    ensures longer { LongerPastHasBoth }
{}

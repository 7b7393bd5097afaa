//! The kinds of step: what each does to views, and what its caller learns.
use crate::views::SeatView;
use atomic_table::{Join, Play, Split};
use std::marker::{Brand, PhantomData};

/// The values that a step is about, besides the view of its seat: the call, the claim, a number. Each function of the
/// words chooses a type that gives them.
pub trait Known {
    ghost use Rattle.std.specs.Prelude.{ℕ, Option};
    ghost use Rattle.vll_record.specs.declared.claim.Claim.{Claim};
    ghost use Rattle.vll_proc.specs.declared.call.Call.{Call};
    ghost use Rattle.vll_core.specs.Headline.State.{Base};

    ghost base: { Base };

    ghost call: { Option Call };

    ghost claim: { Claim };

    ghost number: { ℕ };

    ghost given: { Option ℕ };
}

impl Known for Brand {
    ghost use Rattle.std.specs.Prelude.{[], None};
    ghost use Rattle.vll_counters.specs.Shown.{no_claim};

    ghost base = { record { procs = []; records = [] } };

    ghost call = { None };

    ghost claim = { no_claim };

    ghost number = { 0 };

    ghost given = { None };
}

/// Makes a client's session, at the opening.
pub struct MakesSession;

impl Split<SeatView> for MakesSession {
    ghost use Rattle.vll_counters.specs.History.{with_view};
    ghost use Rattle.vll_counters.specs.Steps.{more_clients, session_made};

    ghost left = { with_view more_clients };

    ghost right = { with_view session_made };
}

/// Joins a pass or a session to the queue's seat.
pub struct Comes;

impl Join<SeatView> for Comes {
    ghost use Rattle.vll_counters.specs.History.{with_views, spent_seat};
    ghost use Rattle.vll_counters.specs.Steps.{joined};

    ghost both = { with_views joined };

    ghost spent = { spent_seat };
}

/// Opens a turn for the call of the joined session, if it brings one.
pub struct Opens<T>(PhantomData<T>);

impl<T: Known> Play<(), SeatView> for Opens<T> {
    ghost use Rattle.vll_counters.specs.History.{Stays};
    ghost use Rattle.vll_counters.specs.Told.{OpenTells};

    ghost then = { Stays (OpenTells T.base T.call) };
}

/// Requests the open turn's next claim.
pub struct Requests<T>(PhantomData<T>);

impl<T: Known> Play<(), SeatView> for Requests<T> {
    ghost use Rattle.vll_counters.specs.History.{Requested};

    ghost then = { Requested T.base T.claim };
}

/// Starts a call: that of the open turn, which enters, or a waiting one.
pub struct GivesPass<T>(PhantomData<T>);

impl<T: Known> Split<SeatView> for GivesPass<T> {
    ghost use Rattle.vll_counters.specs.History.{with_view};
    ghost use Rattle.vll_counters.specs.Steps.{pass_kept, pass_made};

    ghost left = { with_view (pass_kept T.number) };

    ghost right = { with_view (pass_made T.number) };
}

/// Lets the session leave the queue; if its turn is open, its call enters.
pub struct GivesSession<T>(PhantomData<T>);

impl<T: Known> Split<SeatView> for GivesSession<T> {
    ghost use Rattle.vll_counters.specs.History.{with_view};
    ghost use Rattle.vll_counters.specs.Steps.{session_kept, session_given};

    ghost left = { with_view session_kept };

    ghost right = { with_view (session_given T.given) };
}

/// Loads a record for a call that a session has not entered yet.
pub struct Finds<T>(PhantomData<T>);

impl<T: Known> Play<(), SeatView> for Finds<T> {
    ghost use Rattle.vll_counters.specs.History.{Found};

    ghost then = { Found T.base T.number };
}

/// Makes news of what a session has seen.
pub struct Tells;

impl Split<SeatView> for Tells {
    ghost use Rattle.vll_counters.specs.History.{with_view};
    ghost use Rattle.vll_counters.specs.News.{as_it_is, news_told};

    ghost left = { with_view as_it_is };

    ghost right = { with_view news_told };
}

/// Joins news to a session's seat.
pub struct NewsComes;

impl Join<SeatView> for NewsComes {
    ghost use Rattle.vll_counters.specs.History.{with_views, spent_seat};
    ghost use Rattle.vll_counters.specs.News.{with_news};

    ghost both = { with_views with_news };

    ghost spent = { spent_seat };
}

/// Makes a session hear the news that has joined its seat.
pub struct Hears;

impl Play<(), SeatView> for Hears {
    ghost use Rattle.vll_counters.specs.History.{Stays};
    ghost use Rattle.vll_counters.specs.News.{HearTells};

    ghost then = { Stays HearTells };
}

/// Loads the record of a running call's next claim.
pub struct Loads<T>(PhantomData<T>);

impl<T: Known> Play<(), SeatView> for Loads<T> {
    ghost use Rattle.vll_counters.specs.History.{Stays};
    ghost use Rattle.vll_counters.specs.Told.{LoadTells};

    ghost then = { Stays (LoadTells T.base T.number) };
}

/// Stores the record of a running call's next Write claim.
pub struct Stores;

impl Play<(), SeatView> for Stores {
    ghost use Rattle.vll_counters.specs.History.{Stays};
    ghost use Rattle.vll_counters.specs.Told.{StoreTells};

    ghost then = { Stays StoreTells };
}

/// Releases a running call's next claim.
pub struct Releases<T>(PhantomData<T>);

impl<T: Known> Play<(), SeatView> for Releases<T> {
    ghost use Rattle.vll_counters.specs.History.{Released};

    ghost then = { Released T.base T.claim };
}

/// Ends the call of the joined pass: it is gone.
pub struct Ends<T>(PhantomData<T>);

impl<T: Known> Play<(), SeatView> for Ends<T> {
    ghost use Rattle.vll_counters.specs.History.{Stays};
    ghost use Rattle.vll_counters.specs.Told.{EndTells};

    ghost then = { Stays (EndTells T.base) };
}

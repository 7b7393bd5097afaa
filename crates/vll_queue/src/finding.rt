//! Gives a call with an indirect key the value of its source, before the call enters.
ghost use Rattle.std.specs.Prelude.{◌≡◌, ◌<◌, Some};
ghost use Rattle.vll_check.specs.Headline.Calls.{source as source_in};
ghost use Rattle.vll_check.specs.Calls.{Fits, IsReady};
ghost use Rattle.vll_check.specs.Catalog.{IsCatalog};
ghost use Rattle.vll_queue.specs.Looked.{HasLooked, IsLookedUp};
ghost use Rattle.vll_queue.specs.Shown.{library_of, words_of};

use crate::name::Name;
use crate::session::Session;
use vll_check::Library;
use vll_counters::Words;
use vll_proc::Call;
use vll_record::RecordId;

/// The call with the value that its source has. The session has then seen what the value came from. It is not inlined,
/// so that other calls make no room for it.
#[inline(never)]
pub fn find<N: Name>(
    words: &Words,
    library: &Library,
    session: &mut Session,
    call: &Call,
    source: RecordId,
) -> Call
    requires words { words.now ≡ words_of N.engine }
    requires library { library.now ≡ library_of N.engine }
    requires catalog { IsCatalog (library_of N.engine) }
    requires session { session.old.table ≡ N.engine.table }
    requires fits { Fits (library_of N.engine) call.now }
    requires source { source_in (library_of N.engine) call.now ≡ Some source }
    requires there { source < (library_of N.engine).records }
    ensures session { session.new.table ≡ session.old.table }
    ensures looked { HasLooked N.engine session.old.session session.new.session call.now result }
    ensures looked_up { IsLookedUp N.engine session.new.session result }
    ensures ready { IsReady (library_of N.engine) result }
{
    let Some(seat) = &mut session.seat else {
        unreachable!()
    };
    let value = words.find(seat, source);
    library.with_found(call, value)
}

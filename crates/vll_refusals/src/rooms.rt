//! The functions that only allocate.
ghost use Rattle.std.specs.Prelude.{◌≡◌, length};

use crate::answer::Answer;
use crate::runs::four_clients;
use crate::unready::Unready;
use crate::{begin, end};
use std::alloc::Global;
use vll_check::Library;
use vll_core::{Core, OpenFault, Queue};
use vll_counters::{NoMemory, Words};
use vll_engine::Opening;
use vll_sca::{Bits, BitsFault, MOST_BITS};

pub(crate) fn bits(rt: &(impl Print + AllocGlobal)) -> Result<Answer, Unready> {
    begin(rt)?;
    let made = Bits::new(rt.alloc(), MOST_BITS);
    end(rt)?;
    Ok(match made {
        Ok(_) => Answer::Ample,
        Err(BitsFault::NoMemory) => Answer::NoMemory,
        Err(BitsFault::Size) => Answer::Wrong,
    })
}

pub(crate) fn queue(rt: &(impl Print + AllocGlobal)) -> Result<Answer, Unready> {
    let parts = four_clients(rt.alloc())?.into_parts();
    begin(rt)?;
    let made = Queue::open(rt.alloc(), parts.config, parts.placing);
    end(rt)?;
    Ok(match made {
        Ok(queue) => Answer::Ample.only_if(queue.waiting() == 0 && queue.running() == 0),
        Err(fault) => of_fault(fault),
    })
}

pub(crate) fn core(rt: &(impl Print + AllocGlobal)) -> Result<Answer, Unready> {
    let parts = four_clients(rt.alloc())?.into_parts();
    begin(rt)?;
    let made = Core::open(
        rt.alloc(),
        parts.records,
        parts.library,
        parts.scripts,
        parts.config,
        parts.placing,
    );
    end(rt)?;
    Ok(match made {
        Ok(core) => Answer::Ample.only_if(core.journal().is_empty()),
        Err(fault) => of_fault(fault),
    })
}

pub(crate) fn words(rt: &(impl Print + AllocGlobal)) -> Result<Answer, Unready> {
    let parts = four_clients(rt.alloc())?.into_parts();
    begin(rt)?;
    let made = number_of_seats(rt.alloc(), parts.records.as_slice(), &parts.library);
    end(rt)?;
    Ok(match made {
        Ok(seats) => Answer::Ample.only_if(seats == 4),
        Err(NoMemory) => Answer::NoMemory,
    })
}

// The number of sessions' seats that are made with the words of these records for four clients.
fn number_of_seats(alloc: Global, records: &[u64], library: &Library) -> Result<usize, NoMemory>
    requires { library.now.records ≡ length records.now }
{
    let (_words, _queue, seats) = Words::open(alloc, records, library, 4)?;
    Ok(seats.len())
}

pub(crate) fn opening(rt: &(impl Print + AllocGlobal)) -> Result<Answer, Unready> {
    let parts = four_clients(rt.alloc())?.into_parts();
    begin(rt)?;
    let made = Opening::new(
        rt.alloc(),
        parts.records,
        parts.library,
        parts.config,
        parts.placing,
        4,
    );
    end(rt)?;
    Ok(match made {
        Ok(_) => Answer::Ample,
        Err(fault) => of_fault(fault),
    })
}

// The answer for a fault: only `NoMemory` can occur, since the input can be opened.
fn of_fault(fault: OpenFault) -> Answer {
    match fault {
        OpenFault::NoMemory => Answer::NoMemory,
        _ => Answer::Wrong,
    }
}

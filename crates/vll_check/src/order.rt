//! The order in which a library keeps its procedures: by their names, each with its number.
ghost use Rattle.std.specs.Prelude.{◌≡◌, ◌<◌, ◌^◌, length, map, IfOk, is_err};
ghost use Rattle.std.specs.List.Sorted.{IsPermutation};
ghost use Rattle.vll_check.specs.Names.{has_name_twice};
ghost use Rattle.vll_check.specs.Entry.{procedure_of};
ghost use Rattle.vll_check.specs.Private.Order.{IsInOrder, AllPassed, AreNumbered, HaveNumbers, ArePlaced, AreArranged};

use crate::checked::Checked;
use crate::fault::NameTwice;

// Numbers the procedures by their indices, and sorts them by name, ready to be found by name and by number. It
// allocates no memory, and takes about n log n comparisons for n procedures. An `Err` leaves them in some order.
pub(crate) fn arrange(entries: &mut [Checked]) -> Result<(), NameTwice>
    requires few { length entries.old < 2 ^ 32 }
    ensures ok { IfOk result (λ _. AreArranged entries.old entries.new) }
    ensures twice { is_err result ≡ has_name_twice (map procedure_of entries.old) }
    ensures passed { AllPassed entries.old }
{
    set_numbers(entries);
    sort_by_name(entries);
    if has_equal_neighbours(entries) {
        return Err(NameTwice);
    }
    set_places(entries);
    Ok(())
}

// Sets each procedure's number to its index.
fn set_numbers(entries: &mut [Checked])
    requires few { length entries.old < 2 ^ 32 }
    ensures numbered { AreNumbered entries.old entries.new }
    ensures passed { AllPassed entries.old }
{
    for i in 0..entries.len() {
        entries[i].set_number(i as u32);
    }
}

fn sort_by_name(entries: &mut [Checked])
    ensures moved { IsPermutation entries.old entries.new }
    ensures sorted { IsInOrder entries.new }
{
    entries.sort_unstable_by(|a, b| a.name().cmp(b.name()));
}

// In the order of the names, equal names are neighbours.
fn has_equal_neighbours(entries: &[Checked]) -> bool
    requires { IsInOrder entries.now }
    ensures { result ≡ has_name_twice (map procedure_of entries.now) }
{
    for i in 1..entries.len() {
        if entries[i - 1].name() == entries[i].name() {
            return true;
        }
    }
    false
}

// Sets the place at each number to the index of the procedure with that number.
fn set_places(entries: &mut [Checked])
    requires few { length entries.old < 2 ^ 32 }
    requires numbers { HaveNumbers entries.old }
    ensures { ArePlaced entries.old entries.new }
{
    for i in 0..entries.len() {
        let number = entries[i].number() as usize;
        entries[number].set_place(i as u32);
    }
}

//! The way to the piece of a scenario that is at fault. It is searched for only if there is a fault.
ghost use Rattle.std.specs.Prelude.{◌≡◌, ◌++◌, IfOk, OnOk, map, option_map};
ghost use Rattle.serde_json.specs.View.{items_view, view};
ghost use Rattle.vll_fault_path.specs.PieceTests as test;
ghost use Rattle.vll_fault_path.specs.Pieces.{member_piece, pieces_behind, pieces_of_call, pieces_of_form, pieces_of_key, pieces_of_place, pieces_of_procedure, pieces_of_scenario, pieces_of_slots, pieces_of_words};
ghost use Rattle.vll_fault_path.specs.Private.{piece_of};
ghost use Rattle.vll_fault_path.specs.Ways.{Leads, LeadsToFault, edition_in, procedure_in, records_in};
ghost use Rattle.vll_scenario.specs.declared.fault.ScenarioFault.TheVariants.{Check};

use crate::form::{Slot, form_of};
use crate::part::push_parts;
use crate::piece::{Kind, Step};
use crate::piece_test::{count_in, has_size, if_read, is_some};
use crate::shape::search_pieces;
use serde_json::Value;
use std::alloc::{AllocError, Global};
use vll_check::{CheckFault, Piecewise};
use vll_core::MOST_RECORDS;
use vll_proc::{Edition, Proc};
use vll_scenario::{
    MAY_NAMES, MUST_NAMES, Reads, ScenarioFault, has_exactly, has_members, mode_of,
};

/// A piece of a scenario's JSON tree: the step to it from the enclosing piece, what it has to be, and its value.
#[derive(Clone, Copy)]
pub struct Found<'v> {
    pub step: Step,
    pub kind: Kind,
    pub value: &'v Value,
}

/// The steps from a scenario to the piece at fault.
#[derive(Drop)]
pub struct Way<'v> {
    pub steps: Vec<Step>,
    /// The piece, if its shape or its size is at fault and it is not the scenario itself.
    pub piece: Option<Found<'v>>,
    /// The index, record or count in the piece, if it is part of a procedure that is refused, and has one; else 0.
    pub number: u64,
}

/// Finds the way from a scenario's JSON tree to the piece at fault, for the fault that reading it has returned. If the
/// fault lies in no tree, the way has no step. If the tree has no such procedure as the fault names, the way ends where
/// that would be. `AllocError` means that memory ran out.
pub fn way_to_fault<'v>(
    alloc: Global,
    tree: &'v Value,
    why: ScenarioFault,
) -> Result<Way<'v>, AllocError>
    ensures { IfOk result (λ way. LeadsToFault (view tree.now) why way.steps.items) }
{
    match why {
        ScenarioFault::Shape(_) => way_to_shape(alloc, tree),
        ScenarioFault::Size => way_to_size(alloc, tree),
        ScenarioFault::Check { index, fault } => way_in_procedure(alloc, tree, index, fault),
        ScenarioFault::NameTwice => way_of(alloc, &[Step::Procs]),
        ScenarioFault::Call { client, index, .. } => {
            let client = Step::Item(client as usize);
            way_of(alloc, &[Step::Clients, client, Step::Call(index as usize)])
        }
        _ => way_of(alloc, &[]),
    }
}

// The way of these steps, whose piece no test has found.
fn way_of<'v>(alloc: Global, steps: &[Step]) -> Result<Way<'v>, AllocError>
    ensures { IfOk result (λ way. way.steps.items ≡ steps.now) }
{
    Ok(Way {
        steps: Vec::from_slice(alloc, steps)?,
        piece: None,
        number: 0,
    })
}

// The way from a scenario to the piece that is not what it has to be.
fn way_to_shape<'v>(alloc: Global, tree: &'v Value) -> Result<Way<'v>, AllocError>
    ensures { IfOk result (λ way. Leads (edition_in (view tree.now)) test.Shape (pieces_of_scenario (view tree.now)) way.steps.items) }
{
    let edition = edition_in(tree);
    let pieces = pieces_of_scenario(alloc, tree)?;
    let mut steps = Vec::new(alloc);
    // `?` takes no value that has both a reference and locals
    match search_pieces(alloc, &mut steps, edition, pieces.as_slice()) {
        Ok(piece) => Ok(Way {
            steps,
            piece,
            number: 0,
        }),
        Err(why) => Err(why),
    }
}

// The way from a scenario to the first part that is not within its limits.
fn way_to_size<'v>(alloc: Global, tree: &'v Value) -> Result<Way<'v>, AllocError>
    ensures { IfOk result (λ way. Leads (edition_in (view tree.now)) test.Sizes (pieces_of_scenario (view tree.now)) way.steps.items) }
{
    let pieces = pieces_of_scenario(alloc, tree)?;
    for piece in pieces.as_slice() {
        let Found { step, kind, value } = *piece;
        if !has_size(step, kind, value)? {
            return Ok(Way {
                steps: Vec::from_slice(alloc, &[step])?,
                piece: Some(*piece),
                number: 0,
            });
        }
    }
    way_of(alloc, &[])
}

// The way to a procedure that is refused, and on to the piece of it that does not pass the test.
fn way_in_procedure<'v>(
    alloc: Global,
    tree: &'v Value,
    index: u32,
    fault: CheckFault,
) -> Result<Way<'v>, AllocError>
    ensures { IfOk result (λ way. LeadsToFault (view tree.now) (Check index fault) way.steps.items) }
{
    let edition = edition_in(tree);
    let start = [Step::Procs, Step::Item(index as usize)];
    let Some(value) = procedure_in(tree, index) else {
        return way_of(alloc, &start);
    };
    let Some(procedure) = if_read(Proc::read(alloc, edition, value))? else {
        return way_of(alloc, &start);
    };
    let test = Piecewise {
        procedure,
        records: records_in(tree),
        fault,
    };
    let mut steps = Vec::from_slice(alloc, &start)?;
    let number = push_parts(&mut steps, &test)?;
    Ok(Way {
        steps,
        piece: None,
        number,
    })
}

// The procedure at an index.
fn procedure_in<'v>(tree: &'v Value, index: u32) -> Option<&'v Value>
    ensures { option_map (λ v. view v.now) result ≡ procedure_in (view tree.now) index }
{
    tree.get("procs")?.get(index as usize)
}

// The number of records, no more than a scenario may have.
fn records_in(tree: &Value) -> u32
    ensures { result ≡ records_in (view tree.now) }
{
    match tree.get("records") {
        Some(records) => count_in(records).min(MOST_RECORDS as usize) as u32,
        None => 0,
    }
}

// The edition in which a scenario is read.
fn edition_in(tree: &Value) -> Edition
    ensures { result ≡ edition_in (view tree.now) }
{
    match tree.get("version").and_then(Value::as_u64) {
        Some(2) => Edition::Two,
        _ => Edition::One,
    }
}

// The pieces of a scenario.
fn pieces_of_scenario<'v>(alloc: Global, tree: &'v Value) -> Result<Vec<Found<'v>>, AllocError>
    ensures { IfOk result (λ pieces. map piece_of pieces.items ≡ pieces_of_scenario (view tree.now)) }
{
    let mut pieces = Vec::new(alloc);
    if has_members(tree, &MUST_NAMES, &MAY_NAMES) {
        push_member(&mut pieces, tree, "version", Step::Version, Kind::Version)?;
        push_member(&mut pieces, tree, "records", Step::Records, Kind::Records)?;
        push_member(&mut pieces, tree, "procs", Step::Procs, Kind::Procedures)?;
        push_member(&mut pieces, tree, "clients", Step::Clients, Kind::Scripts)?;
        push_member(&mut pieces, tree, "cap", Step::Cap, Kind::Whole)?;
        push_member(&mut pieces, tree, "bits", Step::Bits, Kind::Whole)?;
        push_member(&mut pieces, tree, "limit", Step::Limit, Kind::Whole)?;
        push_member(&mut pieces, tree, "hash", Step::Hash, Kind::Hash)?;
        push_member(
            &mut pieces,
            tree,
            "schedule",
            Step::Schedule,
            Kind::Schedule,
        )?;
    }
    Ok(pieces)
}

// The pieces of a value that is not a list of any length.
pub(crate) fn pieces_of_form<'v>(
    alloc: Global,
    edition: Edition,
    kind: Kind,
    value: &'v Value,
) -> Result<Vec<Found<'v>>, AllocError>
    ensures { IfOk result (λ pieces. map piece_of pieces.items
        ≡ pieces_of_form edition kind (view value.now)) }
{
    match kind {
        Kind::Procedure => pieces_of_procedure(alloc, value),
        Kind::Call => pieces_of_call(alloc, value),
        Kind::Key => pieces_of_key(alloc, edition, value),
        _ => pieces_of_words(alloc, edition, kind, value),
    }
}

fn pieces_of_procedure<'v>(alloc: Global, value: &'v Value) -> Result<Vec<Found<'v>>, AllocError>
    ensures { IfOk result (λ pieces. map piece_of pieces.items ≡ pieces_of_procedure (view value.now)) }
{
    let mut pieces = Vec::new(alloc);
    if has_exactly(value, &["name", "args", "keys", "body"]) {
        push_member(&mut pieces, value, "name", Step::Name, Kind::Text)?;
        push_member(&mut pieces, value, "args", Step::Args, Kind::Index)?;
        push_member(&mut pieces, value, "keys", Step::Keys, Kind::Keys)?;
        push_member(&mut pieces, value, "body", Step::Body, Kind::Statements)?;
    }
    Ok(pieces)
}

fn pieces_of_call<'v>(alloc: Global, value: &'v Value) -> Result<Vec<Found<'v>>, AllocError>
    ensures { IfOk result (λ pieces. map piece_of pieces.items ≡ pieces_of_call (view value.now)) }
{
    let mut pieces = Vec::new(alloc);
    if has_exactly(value, &["proc", "args"]) {
        push_member(&mut pieces, value, "proc", Step::Proc, Kind::Text)?;
        push_member(&mut pieces, value, "args", Step::Args, Kind::Arguments)?;
    }
    Ok(pieces)
}

// Appends a member of an object, if it is there.
fn push_member<'v>(
    pieces: &mut Vec<Found<'v>>,
    value: &'v Value,
    name: &str,
    step: Step,
    kind: Kind,
) -> Result<(), AllocError>
    ensures { OnOk result (map piece_of pieces.new.items
        ≡ map piece_of pieces.old.items ++ member_piece name.now step kind (view value.now)) }
{
    if let Some(value) = value.get(name) {
        pieces.push(Found { step, kind, value })?;
    }
    Ok(())
}

fn pieces_of_key<'v>(
    alloc: Global,
    edition: Edition,
    value: &'v Value,
) -> Result<Vec<Found<'v>>, AllocError>
    ensures { IfOk result (λ pieces. map piece_of pieces.items ≡ pieces_of_key edition (view value.now)) }
{
    let mut pieces = Vec::new(alloc);
    if let Value::Array(list) = value
        && let [mode, others @ ..] = list.as_slice()
        && let [word, behind @ ..] = others
    {
        push_place(&mut pieces, edition, mode.as_str(), word.as_str(), behind)?;
    }
    Ok(pieces)
}

// Appends the pieces that follow the mode and the place of a key.
fn push_place<'v>(
    pieces: &mut Vec<Found<'v>>,
    edition: Edition,
    mode: Option<&str>,
    word: Option<&str>,
    values: &'v [Value],
) -> Result<(), AllocError>
    ensures { OnOk result (map piece_of pieces.new.items ≡ map piece_of pieces.old.items
        ++ pieces_of_place edition (option_map (λ s. s.now) mode.entry) (option_map (λ s. s.now) word.entry) (items_view values.now)) }
{
    if let Some(mode) = mode
        && let Some(word) = word
        && is_some(mode_of(mode))?
    {
        push_slots(pieces, form_of(edition, Kind::Key, word), values)?;
    }
    Ok(())
}

// The pieces that follow the word of a form.
fn pieces_of_words<'v>(
    alloc: Global,
    edition: Edition,
    kind: Kind,
    value: &'v Value,
) -> Result<Vec<Found<'v>>, AllocError>
    ensures { IfOk result (λ pieces. map piece_of pieces.items
        ≡ pieces_of_words edition kind (view value.now)) }
{
    let mut pieces = Vec::new(alloc);
    if let Value::Array(list) = value
        && let [first, behind @ ..] = list.as_slice()
        && let Some(word) = first.as_str()
    {
        push_slots(&mut pieces, form_of(edition, kind, word), behind)?;
    }
    Ok(pieces)
}

// Appends the pieces that follow a word, unless there are more or fewer than it takes.
fn push_slots<'v>(
    pieces: &mut Vec<Found<'v>>,
    slots: &[Slot],
    values: &'v [Value],
) -> Result<(), AllocError>
    ensures { OnOk result (map piece_of pieces.new.items
        ≡ map piece_of pieces.old.items ++ pieces_of_slots slots.now (items_view values.now)) }
{
    if slots.len() == values.len() {
        push_behind(pieces, slots, values)?;
    }
    Ok(())
}

// Appends the pieces that follow a word.
fn push_behind<'v>(
    pieces: &mut Vec<Found<'v>>,
    slots: &[Slot],
    values: &'v [Value],
) -> Result<(), AllocError>
    ensures { OnOk result (map piece_of pieces.new.items
        ≡ map piece_of pieces.old.items ++ pieces_behind slots.now (items_view values.now)) }
{
    if let [slot, slots @ ..] = slots
        && let [value, values @ ..] = values
    {
        let Slot { step, kind } = *slot;
        pieces.push(Found { step, kind, value })?;
        push_behind(pieces, slots, values)?;
    }
    Ok(())
}

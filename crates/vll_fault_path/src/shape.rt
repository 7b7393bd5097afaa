//! The search for the first piece of a scenario that is not what it has to be.
ghost use Rattle.std.specs.Prelude.{IfOk, map};
ghost use Rattle.serde_json.specs.View.{items_view};
ghost use Rattle.vll_fault_path.specs.Pieces.{items_from};
ghost use Rattle.vll_fault_path.specs.Private.{EndsPiece, EndsPieces, piece_of};

use crate::piece::{Kind, Step, item_kind, item_step, step_back};
use crate::piece_test::is_read;
use crate::way::{Found, pieces_of_form};
use serde_json::Value;
use std::alloc::{AllocError, Global};
use vll_proc::Edition;

// Searches some pieces for the first one that is not what it has to be, and goes on in it. Returns the piece in which the
// way ends. Each piece is looked at once: the step to it is pushed before it is searched, and popped if it passes.
#[cycle(search_piece)]
pub(crate) fn search_pieces<'v>(
    alloc: Global,
    steps: &mut Vec<Step>,
    edition: Edition,
    pieces: &[Found<'v>],
) -> Result<Option<Found<'v>>, AllocError>
    ensures { IfOk result (λ found. EndsPieces edition (map piece_of pieces.now) found steps.old.items steps.new.items) }
{
    for piece in pieces {
        steps.push(piece.step)?;
        match search_piece(alloc, steps, edition, *piece) {
            Ok(None) => step_back(steps),
            ended => return ended,
        }
    }
    Ok(None)
}

// The same for the items of a list. No list is made of the pieces.
#[cycle(search_piece)]
fn search_items<'v>(
    alloc: Global,
    steps: &mut Vec<Step>,
    edition: Edition,
    list: Kind,
    kind: Kind,
    values: &'v [Value],
) -> Result<Option<Found<'v>>, AllocError>
    ensures { IfOk result (λ found. EndsPieces edition (items_from list kind 0 (items_view values.now)) found steps.old.items steps.new.items) }
{
    for (i, value) in values.iter().enumerate() {
        let step = item_step(list, i);
        steps.push(step)?;
        match search_piece(alloc, steps, edition, Found { step, kind, value }) {
            Ok(None) => step_back(steps),
            ended => return ended,
        }
    }
    Ok(None)
}

// The same in a piece: it is what it has to be if the pieces in it are. Only one in which there are none is read.
#[cycle(search_piece)]
fn search_piece<'v>(
    alloc: Global,
    steps: &mut Vec<Step>,
    edition: Edition,
    piece: Found<'v>,
) -> Result<Option<Found<'v>>, AllocError>
    ensures { IfOk result (λ found. EndsPiece edition (piece_of piece.entry) found steps.old.items steps.new.items) }
{
    let Found { kind, value, .. } = piece;
    if let Some(item) = item_kind(kind) {
        return match value.as_array() {
            Some(list) => search_items(alloc, steps, edition, kind, item, list.as_slice()),
            None => Ok(Some(piece)),
        };
    }
    let pieces = pieces_of_form(alloc, edition, kind, value)?;
    if !pieces.is_empty() {
        return search_pieces(alloc, steps, edition, pieces.as_slice());
    }
    if is_read(alloc, edition, kind, value)? {
        Ok(None)
    } else {
        Ok(Some(piece))
    }
}

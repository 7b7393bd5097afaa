//! Stacks with room for as many values as a worker may begin calls under one hold.
ghost use Rattle.std.specs.Prelude.{◌≡◌, ◌<◌, ◌≤◌, ◌∷◌, [], IfNone, IfOk, IfSome, MatchBool, length};

use std::alloc::{AllocError, Global};
use std::marker::Model;
use vll_engine::MOST_PASSES;

/// The most calls that a worker begins under one hold: a list of passes has room for as many.
pub const MOST_BATCH: usize = MOST_PASSES;

/// A stack of up to MOST_BATCH values. All memory is allocated when it is made. A contract sees the list of its values,
/// the last one first.
#[derive(Drop)]
pub struct Stack<X> {
    items: Vec<X>,
}

impl<X> Model for Stack<X> {
    ghost use Rattle.std.specs.Prelude.{◌≤◌, List, length, reverse, vec_capacity};
    ghost use Rattle.std.specs.Coded.{codes};
    ghost use Rattle.vll_tokens.specs.declared.stack.TheConstants.{MOST_BATCH};

    ghost Value = { List X };

    ghost view = { λ s. reverse s.items.items };

    ghost invariant = { λ s. (length s.items.items ≤ MOST_BATCH) × (MOST_BATCH ≤ vec_capacity s.items) };
}

impl<X> Stack<X> {
    pub fn new(alloc: Global) -> Result<Stack<X>, AllocError>
        ensures { IfOk result (λ s. s ≡ []) }
    {
        Ok(Stack {
            items: Vec::with_capacity(alloc, MOST_BATCH)?,
        })
    }

    pub fn len(&self) -> usize
        ensures count { result ≡ length self.now }
        ensures few { result ≤ MOST_BATCH }
    {
        self.items.len()
    }

    pub fn is_empty(&self) -> bool
        ensures empty { MatchBool result (self.now ≡ []) (¬ self.now ≡ []) }
        ensures few { length self.now ≤ MOST_BATCH }
    {
        self.items.is_empty()
    }

    #[inline(always)]
    pub fn push(&mut self, value: X)
        requires { length self.old < MOST_BATCH }
        ensures { self.new ≡ value ∷ self.old }
    {
        self.items.push_reserved(value);
    }

    #[inline(always)]
    pub fn pop(&mut self) -> Option<X>
        ensures some { IfSome result (λ value. self.old ≡ value ∷ self.new) }
        ensures none { IfNone result ((self.old ≡ []) × (self.new ≡ [])) }
    {
        self.items.pop()
    }

    /// Destroys an empty stack of values that may not be dropped.
    pub fn destroy(self)
        requires { self ≡ [] }
    {
        self.items.destroy_empty();
    }
}

//! A worker: its pass of the pool, and the tokens that it keeps to its end, with the room for them.
ghost use Rattle.std.specs.Prelude.{◌≡◌, ◌<◌, ◌≤◌, ◌+◌, ◌∷◌, ◌++◌, [], All, IfNone, IfSome, length, vec_capacity};
ghost use Rattle.crossbeam_queue.specs.Passes.{IsSamePass, view};
ghost use Rattle.vll_tokens.specs.Pool.{AreSame, HasInHand, HoldsMore, HoldsOne, IsPassIn, IsPut, IsTaken, all_parts, hired, new_hand};
ghost use Rattle.vll_tokens.specs.Settled.{IsSettled};
ghost use Rattle.vll_tokens.specs.Tokens.{IsOf, clients_of};

use crate::pool::{Pool, PoolPass};
use crate::roster::Roster;
use crate::token::Token;
use std::alloc::{AllocError, Global};
use std::marker::{Model, PhantomData};
use std::sync::Wait;

/// Memory for the tokens that a worker keeps to its end.
#[derive(Drop)]
pub struct Shelf<T: Roster> {
    tokens: Vec<Token>,
    of: PhantomData<T>,
    ghost empty: { tokens.items ≡ [] },
    ghost room: { length T.tokens ≤ vec_capacity tokens },
}

impl<T: Roster> Shelf<T> {
    /// Allocates room for all tokens of the run.
    pub fn new(alloc: Global, count: usize) -> Result<Shelf<T>, AllocError>
        requires { count ≡ length T.tokens }
    {
        Ok(Shelf {
            tokens: Vec::with_capacity(alloc, count)?,
            of: PhantomData,
        })
    }
}

/// A worker: its pass of the pool, and the tokens that it keeps to its end: those of which every call has entered, or of
/// which the engine takes no more calls.
#[derive(Drop)]
pub struct Worker<T: Roster> {
    kept: Vec<Token>,
    pass: PoolPass<T>,
}

impl<T: Roster> Model for Worker<T> {
    ghost use Rattle.std.specs.Prelude.{All, ◌≤◌, length, vec_capacity};
    ghost use Rattle.vll_tokens.specs.Pool.{Working};
    ghost use Rattle.vll_tokens.specs.Settled.{IsSettled};
    ghost use Rattle.vll_tokens.specs.Tokens.{IsOf};

    ghost Value = { Working };

    ghost view = { λ w. record { kept = w.kept.items; pass = w.pass } };

    ghost invariant = { λ w. All (IsOf T.tokens) w.kept.items × All (IsSettled T.limit) w.kept.items × (length T.tokens
        ≤ vec_capacity w.kept) };
}

impl<T: Roster> Worker<T> {
    /// A worker that keeps nothing yet.
    pub fn new(shelf: Shelf<T>, pass: PoolPass<T>) -> Worker<T>
        ensures pass { result.pass ≡ pass }
        ensures kept { result.kept ≡ [] }
    {
        Worker {
            kept: shelf.tokens,
            pass,
        }
    }

    /// Makes a worker with one of this one's parts and nothing in hand.
    pub fn another(&mut self, pool: &Pool<T>, shelf: Shelf<T>) -> Worker<T>
        requires pass { IsPassIn pool.now self.old.pass }
        requires parts { 1 < (view self.old.pass).parts }
        ensures kept { self.new.kept ≡ self.old.kept }
        ensures pass { IsSamePass self.old.pass self.new.pass }
        ensures view { view self.new.pass ≡ hired (view self.old.pass) }
        ensures other { HasInHand pool.now result.pass result.kept }
        ensures new { view result.pass ≡ new_hand }
    {
        Worker::new(shelf, pool.another(&mut self.pass))
    }

    /// Takes a token from the pool.
    pub fn take(&mut self, wait: &impl Wait, pool: &Pool<T>) -> Option<Token>
        requires pass { IsPassIn pool.now self.old.pass }
        requires part { 0 < (view self.old.pass).parts }
        ensures kept { self.new.kept ≡ self.old.kept }
        ensures pass { IsSamePass self.old.pass self.new.pass }
        ensures own { IfSome result (IsOf T.tokens) }
        ensures some { IfSome result (λ t. IsTaken t.client (view self.old.pass) (view self.new.pass)) }
        ensures none { IfNone result (view self.new.pass ≡ view self.old.pass) }
    {
        pool.take(wait, &mut self.pass)
    }

    /// Takes a token from the pool, for the worker that has all parts. If the pool is empty, that worker keeps all
    /// tokens.
    pub fn take_last(&mut self, wait: &impl Wait, pool: &Pool<T>) -> Option<Token>
        requires hand { HasInHand pool.now self.old.pass self.old.kept }
        requires parts { (view self.old.pass).parts ≡ all_parts }
        ensures parts { (view self.new.pass).parts ≡ all_parts }
        ensures kept { self.new.kept ≡ self.old.kept }
        ensures own { IfSome result (IsOf T.tokens) }
        ensures some { IfSome result (λ t. HasInHand pool.now self.new.pass (t ∷ self.new.kept)) }
        ensures all { IfNone result (AreSame (clients_of T.tokens) (clients_of self.new.kept)) }
    {
        pool.take_last(wait, &mut self.pass)
    }

    /// Puts a token that it has in hand into the pool.
    pub fn put(&mut self, wait: &impl Wait, pool: &Pool<T>, token: Token)
        requires own { IsOf T.tokens token }
        requires pass { IsPassIn pool.now self.old.pass }
        requires part { 0 < (view self.old.pass).parts }
        requires held { HoldsOne (view self.old.pass).holds token.client }
        ensures kept { self.new.kept ≡ self.old.kept }
        ensures pass { IsSamePass self.old.pass self.new.pass }
        ensures put { IsPut token.client (view self.old.pass) (view self.new.pass) }
    {
        pool.put(wait, &mut self.pass, token);
    }

    /// Puts all tokens that it has in hand into the pool.
    pub fn put_all(&mut self, wait: &impl Wait, pool: &Pool<T>, tokens: Vec<Token>)
        requires own { All (IsOf T.tokens) tokens.items }
        requires kept { self.old.kept ≡ [] }
        requires hand { HasInHand pool.now self.old.pass tokens.items }
        requires part { 0 < (view self.old.pass).parts }
        ensures parts { (view self.new.pass).parts ≡ (view self.old.pass).parts }
        ensures hand { HasInHand pool.now self.new.pass self.new.kept }
    {
        for token in tokens {
            self.put(wait, pool, token);
        }
    }

    /// Keeps a token that it has in hand.
    pub fn keep(&mut self, pool: &Pool<T>, token: Token)
        requires own { IsOf T.tokens token }
        requires settled { IsSettled T.limit token }
        requires pass { IsPassIn pool.now self.old.pass }
        requires held { HoldsMore (view self.old.pass).holds token.client (clients_of self.old.kept) }
        ensures kept { self.new.kept ≡ self.old.kept ++ token ∷ [] }
        ensures pass { IsSamePass self.old.pass self.new.pass }
        ensures view { view self.new.pass ≡ view self.old.pass }
    {
        pool.learn_few(&mut self.pass);
        self.kept.push_reserved(token);
    }

    /// Takes over another worker's pass, and what it kept.
    pub fn gather(&mut self, pool: &Pool<T>, other: Worker<T>)
        requires hand { HasInHand pool.now self.old.pass self.old.kept }
        requires other { HasInHand pool.now other.pass other.kept }
        ensures hand { HasInHand pool.now self.new.pass self.new.kept }
        ensures parts { (view self.new.pass).parts ≡ (view self.old.pass).parts + (view other.pass).parts }
    {
        let Worker { kept, pass } = other;
        pool.absorb(&mut self.pass, pass);
        for token in kept {
            self.keep(pool, token);
        }
    }

    /// The tokens that it keeps.
    pub fn into_tokens(self) -> Vec<Token>
        ensures kept { result.items ≡ self.kept }
        ensures own { All (IsOf T.tokens) result.items }
        ensures settled { All (IsSettled T.limit) result.items }
    {
        self.kept
    }
}

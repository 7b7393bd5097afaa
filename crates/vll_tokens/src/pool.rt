//! The pool of the tokens that no worker has in hand, and the rule by which they are taken and put back.
ghost use Rattle.std.specs.Prelude.{◌≡◌, ◌<◌, ◌≤◌, IfNone, IfOk, IfSome, length};
ghost use Rattle.crossbeam_queue.specs.Passes.{IsSamePass, view};
ghost use Rattle.vll_tokens.specs.Pool.{AreSame, HoldsOne, IsPassIn, IsPut, IsTaken, all_parts, hand, hired, joined, new_hand};
ghost use Rattle.vll_tokens.specs.Tokens.{IsOf, clients_of};

use crate::roster::Roster;
use crate::token::Token;
use crossbeam_queue::protocol::{Join, Lesson, Outcome, Protocol, Split};
use crossbeam_queue::{Pass, RuledArrayQueue};
use std::alloc::{AllocError, Global};
use std::collections::LinkedList;
use std::marker::{Model, PhantomData};
use std::sync::Wait;

/// What is known of a pass: the clients of the tokens that it has in hand, and its share of the right to know them all.
/// It exists in proofs alone: no value of this type is made.
pub struct Hand {
    pub parts: u64,
    pub holds: LinkedList<u32>,
}

/// A pass of the pool: the right to take tokens and to put them back.
pub type PoolPass<T> = Pass<Owned<T>, Hand>;

/// One of the tokens that were passed to the run.
#[derive(Drop)]
pub struct Owned<T: Roster> {
    token: Token,
    of: PhantomData<T>,
}

impl<T: Roster> Model for Owned<T> {
    ghost use Rattle.vll_tokens.specs.Shown.{TokenShown};
    ghost use Rattle.vll_tokens.specs.Tokens.{IsOf};

    ghost Value = { TokenShown };

    ghost view = { λ o. o.token };

    ghost invariant = { λ o. IsOf T.tokens o.token };
}

impl<T: Roster> Owned<T> {
    fn new(token: Token) -> Owned<T>
        requires { IsOf T.tokens token }
        ensures { result ≡ token }
    {
        Owned {
            token,
            of: PhantomData,
        }
    }

    fn into_token(self) -> Token
        ensures same { result ≡ self }
        ensures own { IsOf T.tokens result }
    {
        self.token
    }
}

/// The pool's rule.
pub struct Fair<T: Roster>(PhantomData<T>);

impl<T: Roster> Protocol<Owned<T>, Hand> for Fair<T> {
    ghost use Rattle.vll_tokens.specs.Pool.{IsFair, all_parts, hand};
    ghost use Rattle.vll_tokens.specs.Tokens.{clients_of};

    ghost holds = { IsFair (clients_of T.tokens) };

    ghost first = { hand all_parts (clients_of T.tokens) };
}

// A token is put into the pool. There is room while a token is in hand.
struct Puts<T: Roster>(PhantomData<T>);

impl<T: Roster> Outcome<Owned<T>, Hand> for Puts<T> {
    ghost use Rattle.vll_tokens.specs.Pool.{IsPut};

    ghost then = { λ v x w. IsPut x.client v w };
}

impl<T: Roster> Lesson<Owned<T>, Hand> for Puts<T> {
    ghost use Rattle.std.specs.Prelude.{◌<◌, length};

    ghost fact = { λ v items. length items < length T.tokens };
}

// A token is taken from the pool.
struct Takes<T: Roster>(PhantomData<T>);

impl<T: Roster> Outcome<Owned<T>, Hand> for Takes<T> {
    ghost use Rattle.vll_tokens.specs.Pool.{IsTaken};

    ghost then = { λ v x w. IsTaken x.client v w };
}

impl<T: Roster> Lesson<Owned<T>, Hand> for Takes<T> {
    ghost use Rattle.std.specs.Prelude.{⊤};

    ghost fact = { λ v items. ⊤ };
}

// As `Takes`, for the pass that has all parts. If the pool is empty, that pass has all tokens in hand.
struct TakesLast<T: Roster>(PhantomData<T>);

impl<T: Roster> Outcome<Owned<T>, Hand> for TakesLast<T> {
    ghost use Rattle.vll_tokens.specs.Pool.{IsTaken};

    ghost then = { λ v x w. IsTaken x.client v w };
}

impl<T: Roster> Lesson<Owned<T>, Hand> for TakesLast<T> {
    ghost use Rattle.vll_tokens.specs.Pool.{AreAll};
    ghost use Rattle.vll_tokens.specs.Tokens.{clients_of};

    ghost fact = { λ v items. AreAll (clients_of T.tokens) v.holds (clients_of items) };
}

// No pass has more tokens in hand than there are.
struct Few<T: Roster>(PhantomData<T>);

impl<T: Roster> Lesson<Owned<T>, Hand> for Few<T> {
    ghost use Rattle.std.specs.Prelude.{◌≤◌, length};

    ghost fact = { λ v items. length v.holds ≤ length T.tokens };
}

// A new pass has one part and nothing in hand. A pass that absorbs another gains its parts and its tokens in hand.
struct Hires;

impl Split<Hand> for Hires {
    ghost use Rattle.vll_tokens.specs.Pool.{hired, new_hand};

    ghost left = { hired };

    ghost right = { λ v. new_hand };
}

impl Join<Hand> for Hires {
    ghost use Rattle.std.specs.Prelude.{[]};
    ghost use Rattle.vll_tokens.specs.Pool.{hand, joined};

    ghost both = { joined };

    ghost spent = { hand 0 [] };
}

/// The tokens that no worker has in hand. The one that has been here longest is taken first. Taking or putting one takes
/// no lock, but may spin while another thread is stopped in the middle of doing so.
#[derive(Drop)]
pub struct Pool<T: Roster> {
    queue: RuledArrayQueue<Owned<T>, Hand, Fair<T>>,
}

impl<T: Roster> Model for Pool<T> {
    ghost use Rattle.std.specs.Prelude.{◌≡◌, length};
    ghost use Rattle.atomic_table.specs.Seated.{TableId};
    ghost use Rattle.crossbeam_queue.specs.Passes.{ruled_capacity};

    ghost Value = { TableId };

    ghost view = { λ p. p.queue.table.shared.table_id };

    ghost invariant = { λ p. ruled_capacity p.queue ≡ length T.tokens };
}

impl<T: Roster> Pool<T> {
    /// An empty pool with room for all tokens of the run, and its first pass, which has all of them in hand.
    pub fn new(alloc: Global, count: usize) -> Result<(Pool<T>, PoolPass<T>), AllocError>
        requires some { 0 < count }
        requires count { count ≡ length T.tokens }
        ensures pass { IfOk result (λ p. IsPassIn p.0 p.1) }
        ensures view { IfOk result (λ p. view p.1 ≡ hand all_parts (clients_of T.tokens)) }
    {
        let (queue, pass) = RuledArrayQueue::<Owned<T>, Hand, Fair<T>>::ruled(alloc, count)?;
        Ok((Pool { queue }, pass))
    }

    /// Puts back a token that the pass has in hand. There is always room.
    pub fn put(&self, wait: &impl Wait, pass: &mut PoolPass<T>, token: Token)
        requires own { IsOf T.tokens token }
        requires pass { IsPassIn self.now pass.old }
        requires part { 0 < (view pass.old).parts }
        requires held { HoldsOne (view pass.old).holds token.client }
        ensures pass { IsSamePass pass.old pass.new }
        ensures put { IsPut token.client (view pass.old) (view pass.new) }
    {
        match self
            .queue
            .push_as::<Puts<T>, _>(wait, pass, Owned::new(token))
        {
            Ok(()) => {}
            Err(_) => unreachable!(),
        }
    }

    /// Takes a token.
    pub fn take(&self, wait: &impl Wait, pass: &mut PoolPass<T>) -> Option<Token>
        requires pass { IsPassIn self.now pass.old }
        requires part { 0 < (view pass.old).parts }
        ensures pass { IsSamePass pass.old pass.new }
        ensures own { IfSome result (IsOf T.tokens) }
        ensures some { IfSome result (λ t. IsTaken t.client (view pass.old) (view pass.new)) }
        ensures none { IfNone result (view pass.new ≡ view pass.old) }
    {
        let owned = self.queue.pop_as::<Takes<T>, _>(wait, pass)?;
        Some(owned.into_token())
    }

    /// Takes a token with the pass that has all parts. If there is none, that pass has all tokens in hand.
    pub fn take_last(&self, wait: &impl Wait, pass: &mut PoolPass<T>) -> Option<Token>
        requires pass { IsPassIn self.now pass.old }
        requires parts { (view pass.old).parts ≡ all_parts }
        ensures pass { IsSamePass pass.old pass.new }
        ensures own { IfSome result (IsOf T.tokens) }
        ensures some { IfSome result (λ t. IsTaken t.client (view pass.old) (view pass.new)) }
        ensures none { IfNone result (view pass.new ≡ view pass.old) }
        ensures all { IfNone result (AreSame (clients_of T.tokens) (view pass.old).holds) }
    {
        let owned = self.queue.pop_as::<TakesLast<T>, _>(wait, pass)?;
        Some(owned.into_token())
    }

    /// A new pass, with one part and nothing in hand.
    pub fn another(&self, pass: &mut PoolPass<T>) -> PoolPass<T>
        requires pass { IsPassIn self.now pass.old }
        requires parts { 1 < (view pass.old).parts }
        ensures pass { IsSamePass pass.old pass.new }
        ensures view { view pass.new ≡ hired (view pass.old) }
        ensures other { IsPassIn self.now result }
        ensures new { view result ≡ new_hand }
    {
        self.queue.another::<Hires>(pass)
    }

    /// Absorbs another pass, with what it has in hand.
    pub fn absorb(&self, pass: &mut PoolPass<T>, other: PoolPass<T>)
        requires pass { IsPassIn self.now pass.old }
        requires other { IsPassIn self.now other }
        ensures pass { IsSamePass pass.old pass.new }
        ensures view { view pass.new ≡ joined (view pass.old) (view other) }
    {
        self.queue.absorb::<Hires>(pass, other);
    }

    /// Shows that no pass has more tokens in hand than there are.
    pub fn learn_few(&self, pass: &mut PoolPass<T>)
        requires pass { IsPassIn self.now pass.old }
        ensures pass { IsSamePass pass.old pass.new }
        ensures view { view pass.new ≡ view pass.old }
        ensures few { length (view pass.new).holds ≤ length T.tokens }
    {
        self.queue.learn_as::<Few<T>>(pass);
    }
}

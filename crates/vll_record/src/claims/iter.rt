//! An iterator over the claims of a call.
ghost use Rattle.std.specs.Prelude.{◌≡◌};
ghost use Rattle.std.specs.Iterator.{YieldsFirst, item_count};

use super::Claims;
use crate::claim::Claim;
use std::marker::Model;

/// The claims still to be visited, in ascending order of their records. Contracts see them as a list.
#[derive(Drop)]
pub struct ClaimsIter<'a> {
    claims: &'a Claims,
    next: usize,
}

impl<'a> Model for ClaimsIter<'a> {
    ghost use Rattle.std.specs.Prelude.{List, drop, length, ◌≤◌};
    ghost use Rattle.vll_record.specs.declared.claim.Claim.{Claim};

    ghost Value = { List Claim };

    ghost view = { λ it. drop it.next it.claims.now };

    ghost invariant = { λ it. it.next ≤ length it.claims.now };
}

impl<'a> ClaimsIter<'a> {
    pub(super) fn new(claims: &'a Claims) -> ClaimsIter<'a>
        ensures { result ≡ claims.now }
    {
        ClaimsIter { claims, next: 0 }
    }
}

impl<'a> Iterator for ClaimsIter<'a> {
    type Item = Claim;

    ghost next_gives = { YieldsFirst (λ rest. rest) };

    ghost remaining = { item_count (λ rest. rest) };

    fn next(&mut self) -> Option<Claim> {
        if self.next == self.claims.len() {
            return None;
        }
        let claim = self.claims.get(self.next)?;
        self.next += 1;
        Some(claim)
    }
}

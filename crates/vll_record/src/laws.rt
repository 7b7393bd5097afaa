//! Laws about claims and the words of records, each the contract of a function that does nothing.
ghost use Rattle.std.specs.Prelude.{◌≡◌, ◌≢◌, ℕ, ◌+◌, ◌*◌, ◌/◌, ◌%◌, ◌^◌, ◌<◌, ◌≤◌, ◌==◌, not, if◌then◌else◌, List, [], ◌∷◌, ◌++◌, length, count_by};
ghost use Rattle.vll_record.specs.Headline.Claim.{claims_of, is_write};
ghost use Rattle.vll_record.specs.Claim.{AreClaimsOf, conflict};
ghost use Rattle.vll_record.specs.Headline.Counter.{claims_on, pair_word_of};
ghost use Rattle.vll_record.specs.Counter.{delta_of, pair_of, word_of, is_granted};
ghost use Rattle.vll_record.specs.Headline.Word.{pair_word_of_record};
ghost use Rattle.vll_record.specs.Word.{value_word_of};
ghost use Rattle.vll_record.specs.declared.claim.Claim.{Claim};
ghost use Rattle.vll_record.specs.declared.claim.Mode.{Mode};
ghost use Rattle.vll_record.specs.declared.pair.Pair.{Pair};

/// `claims_of` claims each record once, in the strongest mode in which it was asked for, in
/// ascending order.
pub fn claims_are_of_what_was_asked()
    ensures { (asked : List Claim) → AreClaimsOf asked (claims_of asked) }
{}

/// `claims_of` is the only such list: a list that claims each record once, in the strongest mode in
/// which it was asked for, in ascending order, equals `claims_of` of what was asked for.
pub fn claims_are_the_only_ones()
    ensures { (asked cs : List Claim) → AreClaimsOf asked cs → cs ≡ claims_of asked }
{}

/// A word unpacked to a pair and packed again is unchanged, and so is a pair packed and unpacked.
pub fn pair_and_word_tell_each_other()
    ensures word { (word : ℕ) → word_of (pair_of word) ≡ word }
    ensures pair { (p : Pair) → p.cs < 2 ^ 32 → pair_of (word_of p) ≡ p }
{}

/// The halves of a pair word count the Write claims and the Read claims. With fewer than 2^32
/// claims neither half overflows, and the word fits in 64 bits.
pub fn halves_count_the_claims()
    ensures cx { (cs : List Claim) → length cs < 2 ^ 32
        → pair_word_of cs / 2 ^ 32 ≡ count_by is_write cs }
    ensures cs { (cs : List Claim) → length cs < 2 ^ 32
        → pair_word_of cs % 2 ^ 32 ≡ count_by (λ c. not (is_write c)) cs }
    ensures few_cx { (cs : List Claim) → length cs < 2 ^ 32
        → pair_word_of cs / 2 ^ 32 ≤ length cs }
    ensures few_cs { (cs : List Claim) → length cs < 2 ^ 32
        → pair_word_of cs % 2 ^ 32 ≤ length cs }
    ensures word { (cs : List Claim) → length cs < 2 ^ 32 → pair_word_of cs < 2 ^ 64 }
{}

/// A request adds its claim's delta to the pair word of its record, and leaves every other pair word unchanged. The
/// claim is appended to the open claims.
pub fn request_adds_its_delta()
    ensures { (r : ℕ) (cs : List Claim) (c : Claim)
        → pair_word_of (claims_on r (cs ++ c ∷ []))
        ≡ pair_word_of (claims_on r cs) + (if c.id == r then delta_of c.mode else 0) }
{}

/// A release subtracts its claim's delta from the pair word of its record, and leaves every other pair word unchanged.
/// The claim may be anywhere in the list of open claims.
pub fn release_takes_its_delta()
    ensures { (r : ℕ) (xs ys : List Claim) (c : Claim)
        → pair_word_of (claims_on r (xs ++ c ∷ ys))
        ≡ pair_word_of (claims_on r (xs ++ ys)) + (if c.id == r then delta_of c.mode else 0) }
{}

/// A pair word grants correctly: a request is granted exactly if no open claim conflicts with it,
/// given fewer than 2^32 claims on the record.
pub fn granted_where_no_claim_conflicts()
    ensures { (m : Mode) (r : ℕ) (cs : List Claim) → length (claims_on r cs) < 2 ^ 32
        → is_granted m (pair_word_of (claims_on r cs))
        ≡ not (conflict cs (record { id = r; mode = m } ∷ [])) }
{}

/// No two words have the same index: not the value words of two records, nor their pair words, nor
/// a value word and a pair word. None is at 0, the index of the turn word.
pub fn words_stand_apart()
    ensures values { (r s : ℕ) → r ≢ s → value_word_of r ≢ value_word_of s }
    ensures pairs { (r s : ℕ) → r ≢ s → pair_word_of_record r ≢ pair_word_of_record s }
    ensures kinds { (r s : ℕ) → value_word_of r ≢ pair_word_of_record s }
    ensures no_value_is_the_turn { (r : ℕ) → value_word_of r ≢ 0 }
    ensures no_pair_is_the_turn { (r : ℕ) → pair_word_of_record r ≢ 0 }
{}

//! The indices of a record's value word and pair word.
ghost use Rattle.std.specs.Prelude.{◌≡◌};
ghost use Rattle.vll_record.specs.Headline.Word.{pair_word_of_record};
ghost use Rattle.vll_record.specs.Word.{value_word_of};

use crate::claim::RecordId;

/// Returns the index of a record's value word. Word 0 is the turn word; after it each record has two
/// words, its value word and then its pair word.
pub fn value_word(id: RecordId) -> usize
    ensures { result ≡ value_word_of id }
{
    1 + 2 * id.0 as usize
}

/// Returns the index of a record's pair word, directly after its value word.
pub fn pair_word(id: RecordId) -> usize
    ensures { result ≡ pair_word_of_record id }
{
    2 + 2 * id.0 as usize
}

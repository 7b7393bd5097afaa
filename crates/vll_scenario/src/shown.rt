//! The beginning of a text, as it is shown to a person.
ghost use Rattle.std.specs.Prelude.{◌≡◌, ◌++◌, ◌<◌, ◌≤◌, IfNone, IfSome, IsTrue, take};
ghost use Rattle.std.specs.Fmt.{char_count, is_char_start, take_chars};
ghost use Rattle.std.specs.Str.{IsCharBoundary};
ghost use Rattle.vll_scenario.specs.Shown.{shortened};

/// The most characters of a text that are shown.
pub const MOST_SHOWN: usize = 40;

// As docs/SCENARIO.md and docs/SERVICE.md say.
const _: () = prove!(MOST_SHOWN == 40);

/// What is shown of a text: all of it, or if it has more than `MOST_SHOWN` characters the first ones and two dots.
#[derive(Clone, Copy)]
pub struct Shortened<'a> {
    /// The characters.
    pub beginning: &'a str,
    /// The dots that stand for the others, or nothing if there are none.
    pub dots: &'static str,
}

impl<'a> Shortened<'a> {
    /// Shortens a text. It allocates no memory.
    pub fn new(text: &'a str) -> Shortened<'a>
        ensures shown { result.beginning.now ++ result.dots.now ≡ shortened text.now }
        ensures beginning { result.beginning.now ≡ take_chars MOST_SHOWN text.now }
    {
        match end_of_chars(text.as_bytes(), MOST_SHOWN) {
            Some(end) => {
                let (beginning, _) = text.split_at(end);
                Shortened {
                    beginning,
                    dots: "..",
                }
            }
            None => Shortened {
                beginning: text,
                dots: "",
            },
        }
    }
}

// Where the first characters of a text end, if there are more than `most`.
fn end_of_chars(text: &[u8], most: usize) -> Option<usize>
    ensures some { IfSome result (λ end. (take end text.now ≡ take_chars most text.now) × (most < char_count text.now) × IsCharBoundary text.now end) }
    ensures none { IfNone result ((char_count text.now ≤ most) × (take_chars most text.now ≡ text.now)) }
{
    let mut left = most;
    for index in 0..text.len() {
        if is_char_start(text[index]) {
            if left == 0 {
                return Some(index);
            }
            left -= 1;
        }
    }
    None
}

// Whether a byte is the first of a character.
fn is_char_start(byte: u8) -> bool
    ensures starts { result ≡ is_char_start byte }
    ensures byte { IsTrue result → 128 ≤ byte → 192 ≤ byte }
{
    byte < 0x80 || byte >= 0xc0
}

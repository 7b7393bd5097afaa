//! The forms of a list that begins with a word. The way to the piece at fault goes by these tables, and explanations
//! list them.
ghost use Rattle.std.specs.Prelude.{◌≡◌};
ghost use Rattle.vll_proc.specs.declared.syntax.Edition.{Edition};
ghost use Rattle.vll_fault_path.specs.Forms.{find_form, form_of, forms_in, slots_in, table_in};

use crate::piece::{Kind, Step};
use vll_proc::Edition;

/// A piece that follows the word of a form: the step to it, and what it has to be.
#[derive(Clone, Copy)]
pub struct Slot {
    pub step: Step,
    pub kind: Kind,
}

/// A word, the pieces that have to follow it, and the first edition that has it.
#[derive(Clone, Copy)]
pub struct Form {
    pub word: &'static str,
    pub slots: &'static [Slot],
    pub since: Edition,
}

const ALONE: &[Slot] = &[];

const INDEX: &[Slot] = &[Slot {
    step: Step::Index,
    kind: Kind::Index,
}];

const RECORD: &[Slot] = &[Slot {
    step: Step::Record,
    kind: Kind::Whole,
}];

const ASSIGNMENT: &[Slot] = &[
    Slot {
        step: Step::Index,
        kind: Kind::Index,
    },
    Slot {
        step: Step::Value,
        kind: Kind::Expression,
    },
];

const BRANCH: &[Slot] = &[
    Slot {
        step: Step::Test,
        kind: Kind::Expression,
    },
    Slot {
        step: Step::FirstList,
        kind: Kind::Statements,
    },
    Slot {
        step: Step::SecondList,
        kind: Kind::Statements,
    },
];

const CODE: &[Slot] = &[Slot {
    step: Step::Code,
    kind: Kind::Code,
}];

const VALUE: &[Slot] = &[Slot {
    step: Step::Value,
    kind: Kind::Expression,
}];

const REPEAT: &[Slot] = &[
    Slot {
        step: Step::Count,
        kind: Kind::Index,
    },
    Slot {
        step: Step::List,
        kind: Kind::Statements,
    },
];

const OPERAND: &[Slot] = &[Slot {
    step: Step::Operand,
    kind: Kind::Expression,
}];

const OPERANDS: &[Slot] = &[
    Slot {
        step: Step::LeftOperand,
        kind: Kind::Expression,
    },
    Slot {
        step: Step::RightOperand,
        kind: Kind::Expression,
    },
];

const CLIENT: &[Slot] = &[Slot {
    step: Step::Client,
    kind: Kind::Whole,
}];

const TICKET: &[Slot] = &[Slot {
    step: Step::Ticket,
    kind: Kind::Whole,
}];

// Of a key these are the words for its record, which follow the mode.
const KEYS: &[Form] = &[
    Form {
        word: "arg",
        slots: INDEX,
        since: Edition::One,
    },
    Form {
        word: "fixed",
        slots: RECORD,
        since: Edition::One,
    },
    Form {
        word: "through",
        slots: INDEX,
        since: Edition::One,
    },
];

const STATEMENTS: &[Form] = &[
    Form {
        word: "let",
        slots: ASSIGNMENT,
        since: Edition::One,
    },
    Form {
        word: "set",
        slots: ASSIGNMENT,
        since: Edition::One,
    },
    Form {
        word: "if",
        slots: BRANCH,
        since: Edition::One,
    },
    Form {
        word: "abort",
        slots: CODE,
        since: Edition::One,
    },
    Form {
        word: "reply",
        slots: VALUE,
        since: Edition::One,
    },
    Form {
        word: "repeat",
        slots: REPEAT,
        since: Edition::Two,
    },
];

const EXPRESSIONS: &[Form] = &[
    Form {
        word: "arg",
        slots: INDEX,
        since: Edition::One,
    },
    Form {
        word: "key",
        slots: INDEX,
        since: Edition::One,
    },
    Form {
        word: "local",
        slots: INDEX,
        since: Edition::One,
    },
    Form {
        word: "add",
        slots: OPERANDS,
        since: Edition::One,
    },
    Form {
        word: "sub",
        slots: OPERANDS,
        since: Edition::One,
    },
    Form {
        word: "mul",
        slots: OPERANDS,
        since: Edition::One,
    },
    Form {
        word: "div",
        slots: OPERANDS,
        since: Edition::One,
    },
    Form {
        word: "rem",
        slots: OPERANDS,
        since: Edition::One,
    },
    Form {
        word: "min",
        slots: OPERANDS,
        since: Edition::One,
    },
    Form {
        word: "max",
        slots: OPERANDS,
        since: Edition::One,
    },
    Form {
        word: "equal",
        slots: OPERANDS,
        since: Edition::One,
    },
    Form {
        word: "less",
        slots: OPERANDS,
        since: Edition::One,
    },
    Form {
        word: "not",
        slots: OPERAND,
        since: Edition::One,
    },
];

const EVENTS: &[Form] = &[
    Form {
        word: "find",
        slots: CLIENT,
        since: Edition::One,
    },
    Form {
        word: "enter",
        slots: CLIENT,
        since: Edition::One,
    },
    Form {
        word: "claim",
        slots: ALONE,
        since: Edition::One,
    },
    Form {
        word: "admit",
        slots: ALONE,
        since: Edition::One,
    },
    Form {
        word: "front",
        slots: ALONE,
        since: Edition::One,
    },
    Form {
        word: "scan",
        slots: ALONE,
        since: Edition::One,
    },
    Form {
        word: "load",
        slots: TICKET,
        since: Edition::One,
    },
    Form {
        word: "store",
        slots: TICKET,
        since: Edition::One,
    },
    Form {
        word: "release",
        slots: TICKET,
        since: Edition::One,
    },
    Form {
        word: "finish",
        slots: TICKET,
        since: Edition::One,
    },
];

/// The forms of a piece of this kind; none if such a piece begins with no word. For a key they are the forms of what
/// follows its mode.
pub fn forms_of(kind: Kind) -> &'static [Form]
    ensures { (edition : Edition) → table_in edition result.now ≡ forms_in edition kind }
{
    match kind {
        Kind::Key => KEYS,
        Kind::Statement => STATEMENTS,
        Kind::Expression => EXPRESSIONS,
        Kind::Event => EVENTS,
        _ => &[],
    }
}

/// The form with this word, if there is one.
pub fn form_with(forms: &[Form], word: &str) -> Option<Form>
    ensures { result ≡ find_form word.now forms.now }
{
    match forms {
        [] => None,
        [form, others @ ..] => {
            if word == form.word {
                Some(*form)
            } else {
                form_with(others, word)
            }
        }
    }
}

// The pieces that have to follow a word.
pub(crate) fn form_of(edition: Edition, kind: Kind, word: &str) -> &'static [Slot]
    ensures { result.now ≡ form_of edition kind word.now }
{
    match form_with(forms_of(kind), word) {
        Some(form) => slots_in(edition, form),
        None => &[],
    }
}

// The pieces of a form, none in an edition that does not have it.
fn slots_in(edition: Edition, form: Form) -> &'static [Slot]
    ensures { result.now ≡ slots_in edition form }
{
    match (form.since, edition) {
        (Edition::Two, Edition::One) => &[],
        _ => form.slots,
    }
}

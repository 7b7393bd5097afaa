//! The tasks of the program, and the words of the command line that ask for them.

/// What the command line asks for.
#[derive(Clone, Copy)]
pub(crate) enum Task {
    /// To print how the program is used.
    Usage,
    Events,
    Engine,
    Scan,
    Bodies,
    Compare,
    Counts,
}

/// Reads the words of the command line, the first of which is the program's name. Unknown words ask for the usage.
pub(crate) fn task_of(words: &[String]) -> Task {
    match words {
        [_, word] => task_of_word(word.as_str()),
        _ => Task::Usage,
    }
}

fn task_of_word(word: &str) -> Task {
    match word {
        "events" => Task::Events,
        "engine" => Task::Engine,
        "scan" => Task::Scan,
        "bodies" => Task::Bodies,
        "compare" => Task::Compare,
        "counts" => Task::Counts,
        _ => Task::Usage,
    }
}

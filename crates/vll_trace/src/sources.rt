//! The records that are loaded before the calls of the scripts enter.
use std::alloc::{AllocError, Global};
use vll_check::Library;
use vll_proc::Call;
use vll_record::RecordId;

// Of a script the sources of its calls, if their procedures have one, and how many of the calls have entered.
#[derive(Drop)]
struct Script {
    sources: Vec<Option<RecordId>>,
    entered: usize,
}

/// The sources of the calls of each script.
#[derive(Drop)]
pub(crate) struct Sources {
    scripts: Vec<Script>,
}

impl Sources {
    /// Returns the sources of the calls of these scripts.
    pub(crate) fn new(
        alloc: Global,
        library: &Library,
        scripts: &[Vec<Call>],
    ) -> Result<Sources, AllocError> {
        let mut all = Vec::with_capacity(alloc, scripts.len())?;
        for script in scripts {
            let sources = sources_of(alloc, library, script.as_slice())?;
            all.push(Script {
                sources,
                entered: 0,
            })?;
        }
        Ok(Sources { scripts: all })
    }

    /// Returns the source of a client's next call, if that has one, and goes on to the call after it.
    pub(crate) fn next(&mut self, client: u32) -> Option<RecordId> {
        let script = self.scripts.get_mut(client as usize)?;
        let source = *script.sources.get(script.entered)?;
        script.entered += 1;
        source
    }
}

// The sources of the calls of a script.
fn sources_of(
    alloc: Global,
    library: &Library,
    script: &[Call],
) -> Result<Vec<Option<RecordId>>, AllocError> {
    let mut sources = Vec::with_capacity(alloc, script.len())?;
    for call in script {
        let source = if library.fits(call) {
            library.source(call)
        } else {
            None
        };
        sources.push(source)?;
    }
    Ok(sources)
}

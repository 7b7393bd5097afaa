//! A checked scenario, and what callers do with it: take its parts, or change its cap and its bits.
ghost use Rattle.std.specs.Prelude.{◌≡◌, All, length};
ghost use Rattle.vll_check.specs.Calls.{Fits};
ghost use Rattle.vll_scenario.specs.Headline.Setup.{catalog_of};
ghost use Rattle.vll_scenario.specs.Options.{with_options};
ghost use Rattle.vll_scenario.specs.Setup.{lists_of, IsSetup, setup_with};

use crate::engine_options::{EngineOptions, number_or};
use sqlite_items::Items;
use std::marker::Model;
use vll_check::Library;
use vll_core::{Config, Event};
use vll_proc::Call;
use vll_sca::Placing;

/// A scenario: the records' first values, the procedures, each client's script of calls, the machine's settings, and
/// the events that a replay takes.
///
/// Made by `read_scenario` and `reading_of`, of parts in memory by `from_parts`, and from another scenario by
/// `with_options`. It keeps the limits on a scenario's sizes, each of its procedures is well-formed for its records,
/// and each of its calls was made for one of its procedures, on existing records; `into_parts` states this for callers.
/// In contracts its procedures stand for the library, and each of its lists is a plain list.
#[derive(Drop)]
pub struct Scenario {
    parts: ScenarioParts,
}

impl Model for Scenario {
    ghost use Rattle.vll_proc.specs.contracts.syntax.Expr as expr;
    ghost use Rattle.vll_proc.specs.contracts.syntax.Stmt as stmt;
    ghost use Rattle.std.specs.Coded.{codes};
    ghost use Rattle.vll_scenario.specs.Headline.Setup.{Setup};

    ghost Value = { Setup };

    ghost coded = { Prim.hlevel (codes, expr.the_row.coded, stmt.the_row.coded) };

    ghost use Rattle.vll_scenario.specs.Private.Kept.{setup_in, IsScenario};

    ghost view = { setup_in };

    ghost invariant = { IsScenario };
}

/// The parts of a scenario.
#[derive(Drop)]
pub struct ScenarioParts {
    /// The records' first values.
    pub records: Vec<u64>,
    /// The procedures, checked for this number of records.
    pub library: Library,
    /// Each client's calls, in order.
    pub scripts: Vec<Vec<Call>>,
    pub config: Config,
    pub placing: Placing,
    /// The events that a replay takes.
    pub schedule: Items<Event>,
}

impl Scenario {
    /// Returns the scenario with these parts. Allocates no memory. The library has to be for as many records as there
    /// are, and the rest has to be as `into_parts` promises it.
    pub fn from_parts(parts: ScenarioParts) -> Scenario
        requires records { parts.library.records ≡ length parts.records.items }
        requires kept { IsSetup (setup_with parts) }
        ensures { result ≡ setup_with parts }
    {
        Scenario { parts }
    }

    /// Returns the scenario's parts. Allocates no memory.
    ///
    /// Its sizes and settings are within their limits, and the library makes each call of each script.
    pub fn into_parts(self) -> ScenarioParts
        ensures records { result.records.items ≡ self.records }
        ensures library { result.library ≡ catalog_of self }
        ensures scripts { lists_of result.scripts.items ≡ self.scripts }
        ensures config { result.config ≡ self.config }
        ensures placing { result.placing ≡ self.placing }
        ensures schedule { result.schedule ≡ self.schedule }
        ensures kept { IsSetup self }
        ensures fits { All (λ script. All (Fits result.library) script.items) result.scripts.items }
    {
        self.parts
    }

    /// Returns the scenario with the cap and the number of bits that the options give. All else is unchanged.
    pub fn with_options(mut self, options: EngineOptions) -> Scenario
        ensures { result ≡ with_options options self }
    {
        self.parts.config.cap = number_or(options.cap, self.parts.config.cap);
        self.parts.config.bits = number_or(options.bits, self.parts.config.bits);
        self
    }
}

// Fitting a language to a model, node by node from 0 up.
ghost use Rattle.std.specs.Prelude.{◌≡◌, ℕ, ◌<◌, ◌||◌, Ok};
ghost use Rattle.words.specs.Headers.{Iff};
ghost use Rattle.model.specs.Flat.{flat};
ghost use Rattle.model.specs.Nodes.{node_in};
ghost use Rattle.source.specs.Models.{model_of};
ghost use Rattle.source.specs.Sets.{has};
ghost use Rattle.source.specs.Sound.{Fits};
ghost use Rattle.fit.specs.Fitting.{beyond_at, strays_at, stray_at, fit_of};
ghost use Rattle.fit.specs.InWords.{Suits};
ghost use Rattle.fit.specs.Scopes.{in_node};
ghost use Rattle.fit.specs.Uses.{strays};

use crate::fault::FitFault;
use crate::scope::scope_nodes;
use crate::uses::{names_stray, uses_beyond};
use language::Language;
use model::Model;
use source::NodeSet;

// Expressions name variables below this only.
const VARIABLES: u16 = 16;

fn beyond_at(model: &Model, count: u16, node: u16) -> bool
    ensures answer { result ≡ beyond_at count (flat model.now.bytes.now) node }
{
    model
        .node(node)
        .is_some_and(|here| uses_beyond(count, here))
}

fn strays_here<L: Language>(
    model: &Model,
    language: &L,
    variable: u16,
    node: u16,
    here: bool,
) -> bool
    ensures answer { result ≡ in_node (strays (L.Language.meaning language.now) variable here) (node_in (flat model.now.bytes.now) node) }
{
    let used = model.node(node);
    used.is_some_and(|used| names_stray(language, used, variable, here))
}

// Adds the nodes at which a variable is named out of scope.
fn add_strays<L: Language>(model: &Model, language: &L, variable: u16, strays: &mut NodeSet)
    ensures leaves { (k : ℕ) → k < 256 → has strays.new k ≡ (strays_at (L.Language.meaning language.now) (flat model.now.bytes.now) k variable || has strays.old k) }
{
    let scope = scope_nodes(model, variable);
    for node in 0..256 {
        if strays_here(model, language, variable, node, scope.contains(node)) {
            strays.insert(node);
        }
    }
}

// The nodes at which some variable is named out of scope.
fn stray_nodes<L: Language>(model: &Model, language: &L) -> NodeSet
    ensures answer { (k : ℕ) → k < 256 → has result k ≡ stray_at (L.Language.meaning language.now) (flat model.now.bytes.now) k }
{
    let mut strays = NodeSet::empty();
    for variable in 0..VARIABLES {
        add_strays(model, language, variable, &mut strays);
    }
    strays
}

// Whether every expression that a node uses is below the language's count and names only variables in scope.
// The parameters of a process are in scope in its tree, and what a sum or an action binds is below it; an action's
// weight may name the action's variable too.
pub fn fits<L: Language>(model: &Model, language: &L) -> Result<(), FitFault>
    ensures answer { result ≡ fit_of (L.Language.meaning language.now) (flat model.now.bytes.now) }
    ensures rules { Iff (result ≡ Ok tt) (Suits (L.Language.meaning language.now) (model_of (flat model.now.bytes.now))) }
    ensures fitting { Iff (result ≡ Ok tt) (Fits (L.Language.meaning language.now) (model_of (flat model.now.bytes.now))) }
{
    let strays = stray_nodes(model, language);
    let expressions = language.count();
    for node in 0..model.node_count() {
        if beyond_at(model, expressions, node) {
            return Err(FitFault::Expression(node));
        }
        if strays.contains(node) {
            return Err(FitFault::Variable(node));
        }
    }
    Ok(())
}

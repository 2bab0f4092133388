// The rules in their order, each over the whole file.
ghost use Rattle.std.specs.Prelude.{◌≡◌, Ok};
ghost use Rattle.model_rules.specs.Calls.{Computes};
ghost use Rattle.model_rules.specs.Rules.{first_fault, rules_fault, ruled};
ghost use Rattle.model_rules.specs.Sound.{Sound};
ghost use Rattle.model_file.specs.Limits.{InLimits};
ghost use Rattle.words.specs.Headers.{Iff};

use crate::names::{body_named, node_named};
use crate::places::{call_placed, node_once, variable_once};
use crate::ways::resting_fits;
use model_file::{ModelFault, ModelFile};

// The fault of the first of `count` records that breaks a rule.
fn check_each<H: Fn(u16) -> bool, F: Fn(u16) -> ModelFault>(
    count: u16,
    holds: H,
    fault: F,
) -> Result<(), ModelFault>
    requires holds { H.IsAlwaysCallable holds }
    requires fault { F.IsAlwaysCallable fault }
    ensures answer { (h : _) (f : _) → Computes count (H.post holds) h → Computes count (F.post fault) f → result ≡ first_fault h f count 0 }
{
    for i in 0..count {
        if !holds(i) {
            return Err(fault(i));
        }
    }
    Ok(())
}

fn check_in_order(file: &ModelFile<'_>) -> Result<(), ModelFault>
    ensures answer { result ≡ rules_fault file.now.bytes.now file.now.layout }
{
    let nodes = file.node_count();
    check_each(
        file.process_count(),
        |i| body_named(file, i),
        |record| ModelFault::Unnamed { section: 2, record },
    )?;
    check_each(
        nodes,
        |i| node_named(file, i),
        |record| ModelFault::Unnamed { section: 5, record },
    )?;
    check_each(
        nodes,
        |i| node_once(file, i),
        |record| ModelFault::NotOnce { section: 5, record },
    )?;
    check_each(
        file.variable_count(),
        |i| variable_once(file, i),
        |record| ModelFault::NotOnce { section: 1, record },
    )?;
    check_each(
        nodes,
        |i| call_placed(file, i),
        |node| ModelFault::CallElsewhere { node },
    )?;
    check_each(
        nodes,
        |i| resting_fits(file, i),
        |node| ModelFault::WaysDown { node },
    )
}

// The first rule that a file of six sections breaks, and where.
pub fn check_rules(bytes: &[u8]) -> Result<(), ModelFault>
    ensures answer { result ≡ ruled bytes.now }
    ensures rules { InLimits bytes.now → Iff (result ≡ Ok tt) (Sound bytes.now) }
{
    check_in_order(&ModelFile::new(bytes))
}

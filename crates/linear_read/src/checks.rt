// Rules over the whole file: the first summand that breaks one.
ghost use Rattle.std.specs.Prelude.{◌≡◌, ◌<◌, ◌≤◌, not, IfSome};
ghost use Rattle.std.specs.List.{position_from};
ghost use Rattle.linear.specs.Faults.{at};
ghost use Rattle.linear.specs.Laws.{small_sums};
ghost use Rattle.linear.specs.Reading.{named_in, products_in};

use crate::parts::Part;
use crate::rules::{Names, small_sums};
use linear::{FixedList, Group, HEAD, LinearFault, Place, Summand, Table, WordList};

// The first summand that names something that is none, or chooses a variable twice.
fn misnamed<D: Part>(summands: &FixedList<Summand<D>, 256>, names: Names) -> Option<usize>
    ensures answer { result ≡ position_from (λ s. not (D.named names.variables names.counters s)) 0 summands.now }
    ensures small { IfSome result (λ k. k < 256) }
{
    summands
        .as_slice()
        .iter()
        .position(|summand| !D::is_named(summand, names))
}

// The first summand whose sum variables have too many values.
fn too_large<D: Part>(summands: &FixedList<Summand<D>, 256>, sizes: &WordList) -> Option<usize>
    ensures answer { result ≡ position_from (λ s. not (small_sums sizes.now s)) 0 summands.now }
    ensures small { IfSome result (λ k. k < 256) }
{
    summands
        .as_slice()
        .iter()
        .position(|summand| !small_sums(&summand.when.sums, sizes))
}

fn place_of(group: Group, index: usize) -> Place
    requires small { index < 256 }
    ensures answer { result ≡ at group index }
{
    Place {
        group,
        summand: index as u16,
    }
}

// What is named is there, and no variable is chosen twice.
pub(crate) fn check_names(table: &Table) -> Result<(), LinearFault>
    ensures answer { result ≡ named_in table.now }
{
    let names = Names {
        variables: table.sizes.len(),
        counters: table.counters,
    };
    if !names.has_counter(table.first.counter) {
        return Err(LinearFault::Misnamed(HEAD));
    }
    if let Some(k) = misnamed(&table.actions, names) {
        return Err(LinearFault::Misnamed(place_of(Group::Actions, k)));
    }
    if let Some(k) = misnamed(&table.delays, names) {
        return Err(LinearFault::Misnamed(place_of(Group::Delays, k)));
    }
    Ok(())
}

// The sizes of each summand's sum variables multiply to at most 65,536.
pub(crate) fn check_products(table: &Table) -> Result<(), LinearFault>
    ensures answer { result ≡ products_in table.now }
{
    if let Some(k) = too_large(&table.actions, &table.sizes) {
        return Err(LinearFault::Product(place_of(Group::Actions, k)));
    }
    if let Some(k) = too_large(&table.delays, &table.sizes) {
        return Err(LinearFault::Product(place_of(Group::Delays, k)));
    }
    Ok(())
}

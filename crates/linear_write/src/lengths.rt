// How long the file of an equation is.
ghost use Rattle.std.specs.Prelude.{◌≡◌, ◌*◌, ◌≤◌, length};
ghost use Rattle.std.specs.List.{flat_map};
ghost use Rattle.linear.specs.Layout.{summand_words, file_of};

use linear::{Doing, FixedList, Summand, Table};

// How many bytes a summand takes.
pub(crate) fn span<D: Doing>(summand: &Summand<D>) -> usize
    ensures answer { result ≡ 2 * length (summand_words D.words summand.now) }
    ensures small { result ≤ 200 }
{
    summand.when.span() + summand.does.span() + 2 + 4 * summand.leads.entries.len()
}

// How many bytes the summands of a section take.
fn summands_length<D: Doing>(summands: &FixedList<Summand<D>, 256>) -> usize
    ensures answer { result ≡ 2 * length (flat_map (summand_words D.words) summands.now) }
    ensures small { result ≤ 51200 }
{
    let mut total = 0;
    for summand in summands.as_slice() {
        total += span(summand);
    }
    total
}

// The length of the whole file: header, head and the two sections.
pub(crate) fn file_length(table: &Table) -> usize
    ensures answer { result ≡ length (file_of table.now) }
    ensures large { 5 ≤ result }
    ensures small { result ≤ 110000 }
{
    let head = 6 + 2 * table.sizes.len() + 2 * table.first.values.len();
    5 + head + 4 + summands_length(&table.actions) + summands_length(&table.delays)
}

// What a summand keeps, whatever its place in the file.
ghost use Rattle.std.specs.Prelude.{◌≡◌, nat_le, nat_lt};
ghost use Rattle.linear.specs.Laws.{all, within, distinct, member, product, named_guard, named_acts, named_leads};

use linear::{Act, Guard, Target, WordList};

const LAST_ACTION: u16 = 63;

const MOST_VALUES: u32 = 65536;

fn all_below(words: &[u16], limit: usize) -> bool
    ensures answer { result ≡ all (λ x. nat_lt x limit) words.now }
{
    words.iter().all(|word| usize::from(*word) < limit)
}

fn is_member(word: u16, words: &[u16]) -> bool
    ensures answer { result ≡ member word words.now }
{
    words.contains(&word)
}

fn all_distinct(words: &[u16]) -> bool
    ensures answer { result ≡ distinct words.now }
{
    match words {
        [] => true,
        [first, rest @ ..] => !is_member(*first, rest) && all_distinct(rest),
    }
}

// What a summand may name: variables below this many, and program counters from 1 to this.
#[derive(Clone, Copy)]
pub(crate) struct Names {
    pub(crate) variables: usize,
    pub(crate) counters: u16,
}

impl Names {
    pub(crate) fn has_counter(self, counter: u16) -> bool
        ensures answer { result ≡ within 1 self.counters counter }
    {
        (1..=self.counters).contains(&counter)
    }

    pub(crate) fn has_guard(self, guard: &Guard) -> bool
        ensures answer { result ≡ named_guard self.variables self.counters guard.now }
    {
        self.has_counter(guard.counter)
            && all_below(guard.sums.as_slice(), self.variables)
            && all_distinct(guard.sums.as_slice())
    }

    pub(crate) fn has_act(self, act: &Act, sums: &WordList) -> bool
        ensures answer { result ≡ named_acts self.variables sums.now act.now }
    {
        act.action <= LAST_ACTION
            && usize::from(act.variable) < self.variables
            && !is_member(act.variable, sums.as_slice())
    }

    pub(crate) fn has_target(self, target: &Target) -> bool
        ensures answer { result ≡ named_leads self.variables self.counters target.now }
    {
        self.has_counter(target.counter) && target.entries.len() == self.variables
    }
}

// Whether the sizes of these variables multiply to at most 65,536; one that is none counts as of size 1.
pub(crate) fn small_sums(sums: &WordList, sizes: &WordList) -> bool
    ensures answer { result ≡ nat_le (product sizes.now sums.now) 65536 }
{
    let mut total: u32 = 1;
    for variable in sums.as_slice() {
        let size = sizes.get_or(usize::from(*variable), 1);
        total = total.saturating_mul(u32::from(size));
    }
    total <= MOST_VALUES
}

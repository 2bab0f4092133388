// What the records of a section are, and the limits that each keeps by itself.
ghost use Rattle.std.specs.Prelude.{◌≡◌, ◌+◌, ◌*◌, ◌^◌, ◌<◌, ◌≤◌};
ghost use Rattle.model_file.specs.Sections.{width, section_of, place_of, fewest, most, run_fits, keeps};

use words::word_at;

#[derive(Clone, Copy)]
pub(crate) enum Part {
    Size,
    Process { variables: u16 },
    // a start value, held against the sizes that stand from `sizes` on
    Value { sizes: u32 },
    Arity,
    Node,
    Argument,
}

const MOST_VARIABLES: u16 = 16;

const LARGEST_SIZE: u16 = 256;

const MOST_PROCESSES: u16 = 16;

const MOST_PARAMETERS: u16 = 8;

const MOST_ACTIONS: u16 = 64;

const MOST_ACTION_ARGUMENTS: u16 = 4;

const MOST_NODES: u16 = 256;

const MOST_ARGUMENTS: u16 = 512;

// Whether `number` things from `first` on are among `total`; `first` is 0 where there are none.
pub fn run_fits(total: u16, first: u16, number: u16) -> bool
    ensures answer { result ≡ run_fits total first number }
{
    if number == 0 {
        first == 0
    } else {
        u32::from(first) + u32::from(number) <= u32::from(total)
    }
}

impl Part {
    // How many bytes a record has.
    pub(crate) fn width(self) -> usize
        ensures answer { result ≡ width self }
        ensures small { result ≤ 12 }
    {
        match self {
            Part::Process { .. } => 6,
            Part::Node => 12,
            _ => 2,
        }
    }

    pub(crate) fn section(self) -> u16
        ensures answer { result ≡ section_of self }
    {
        match self {
            Part::Size => 1,
            Part::Process { .. } => 2,
            Part::Value { .. } => 3,
            Part::Arity => 4,
            Part::Node => 5,
            Part::Argument => 6,
        }
    }

    // The number by which record `index` is reported: the start is one record.
    pub(crate) fn place(self, index: u16) -> u16
        ensures answer { result ≡ place_of self index }
    {
        match self {
            Part::Value { .. } => 0,
            _ => index,
        }
    }

    pub(crate) fn fewest(self) -> u16
        ensures answer { result ≡ fewest self }
    {
        match self {
            Part::Process { .. } | Part::Arity | Part::Node => 1,
            _ => 0,
        }
    }

    pub(crate) fn most(self) -> u16
        ensures answer { result ≡ most self }
    {
        match self {
            Part::Size => MOST_VARIABLES,
            Part::Process { .. } => MOST_PROCESSES,
            Part::Value { .. } => MOST_PARAMETERS,
            Part::Arity => MOST_ACTIONS,
            Part::Node => MOST_NODES,
            Part::Argument => MOST_ARGUMENTS,
        }
    }

    // Whether record `index`, which begins at `at`, keeps its limits.
    pub(crate) fn keeps_limits(self, bytes: &[u8], at: usize, index: u16) -> bool
        requires { at < 2 ^ 50 }
        ensures answer { result ≡ keeps bytes.now self at index }
    {
        let word = word_at(bytes, at);
        match self {
            Part::Size => (1..=LARGEST_SIZE).contains(&word),
            Part::Process { variables } => {
                let number = word_at(bytes, at + 2);
                number <= MOST_PARAMETERS && run_fits(variables, word, number)
            }
            Part::Value { sizes } => word < word_at(bytes, sizes as usize + 2 * usize::from(index)),
            Part::Arity if index == 0 => word == 0,
            Part::Arity => word <= MOST_ACTION_ARGUMENTS,
            Part::Node | Part::Argument => true,
        }
    }
}

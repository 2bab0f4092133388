// How answers are printed.
ghost use Rattle.std.specs.Prelude.{Some};
ghost use Rattle.system.specs.Texts.{arguments_text, label_text, refusal_text, step_text};

use crate::answers::{Label, Step};
use crate::refusal::Refusal;
use std::fmt;

impl fmt::Display for Refusal {
    ghost output = { λ r. Some (refusal_text r) };

    fn fmt<W: fmt::Write>(&self, f: &mut fmt::Formatter<W>) -> fmt::Result {
        write!(f, "refused {}", self.number())
    }
}

#[derive(Drop)]
struct Arguments<'a>(&'a [u16]);

impl fmt::Display for Arguments<'_> {
    ghost output = { λ a. Some (arguments_text a.0.now) };

    fn fmt<W: fmt::Write>(&self, f: &mut fmt::Formatter<W>) -> fmt::Result {
        let Some((first, later)) = self.0.split_first() else {
            return Ok(());
        };
        write!(f, "{first}")?;
        for value in later {
            write!(f, ",{value}")?;
        }
        Ok(())
    }
}

impl fmt::Display for Label {
    ghost output = { λ l. Some (label_text l) };

    fn fmt<W: fmt::Write>(&self, f: &mut fmt::Formatter<W>) -> fmt::Result {
        write!(f, "{}({})", self.action, Arguments(self.arguments()))
    }
}

impl fmt::Display for Step {
    ghost output = { λ s. Some (step_text s) };

    fn fmt<W: fmt::Write>(&self, f: &mut fmt::Formatter<W>) -> fmt::Result {
        match self {
            Step::Acted(label, n) => write!(f, "act {label} {n}"),
            Step::Waited(rate) => write!(f, "wait {}", rate.0),
        }
    }
}

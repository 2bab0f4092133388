// An action that a system may have.
ghost use Rattle.std.specs.Prelude.{◌≡◌, ◌<◌, ◌≤◌, MatchOption};

#[derive(Clone, Copy)]
pub struct Action {
    pub(crate) number: u16,
    ghost low: { number < 64 },
}

impl Action {
    // None from 64 up. By an `if`: `then_some` would make the action before the test that its law needs.
    pub fn new(number: u16) -> Option<Action>
        ensures answer { MatchOption result (64 ≤ number) (λ a. a.number ≡ number) }
    {
        if number < 64 {
            Some(Action { number })
        } else {
            None
        }
    }
}

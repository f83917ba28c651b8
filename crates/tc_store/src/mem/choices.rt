//! Choices that a number stands for.

ghost use Rattle.std.specs.Prelude.{◌<◌};

/// What is left of the number, whose digits are the choices.
#[derive(Drop)]
pub(crate) struct Choices {
    left: u64,
}

impl Choices {
    pub(crate) fn of(number: u64) -> Choices {
        Choices { left: number }
    }

    /// The next choice among so many. All further ones are 0 once the number is used up.
    pub(crate) fn choose(&mut self, among: u64) -> u64
        requires { 0 < among }
        ensures { result < among }
    {
        let choice = self.left % among;
        self.left /= among;
        choice
    }
}

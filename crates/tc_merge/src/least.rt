//! The least of the keys that are ahead, so far.

ghost use Rattle.std.specs.Prelude.{◌≡◌, None};
ghost use Rattle.tc_merge.specs.Inputs.{next_in};

use crate::input::{NO_KEY, Next};

/// The newest of some inputs that have the least key ahead, and that key, which is the greatest number where none has one.
#[derive(Clone, Copy)]
pub(crate) struct Least {
    pub input: usize,
    pub key: u64,
}

impl Least {
    /// Of no inputs.
    pub(crate) fn none() -> Least
        ensures { next_in result ≡ None }
    {
        Least {
            input: 0,
            key: NO_KEY,
        }
    }

    /// The next of the inputs.
    pub(crate) fn next(self) -> Option<Next>
        ensures { result ≡ next_in self }
    {
        if self.key == NO_KEY {
            None
        } else {
            Some(Next {
                input: self.input,
                key: self.key,
            })
        }
    }
}

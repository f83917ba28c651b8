//! The law of the generated input, for those who answer its lines.

ghost use Rattle.std.specs.Prelude.{◌≡◌, ◌≤◌, ◌<◌, ◌^◌, ℕ, suc, length};
ghost use Rattle.std.specs.List.{AllByRecursion};
ghost use Rattle.tc_gen.specs.Generated.{generated, input_of};
ghost use Rattle.tc_model.specs.Limits.{max_line};
ghost use Rattle.tc_model.specs.Lines.{lines_of};

/// The generated input has the generated lines, one for each command and the one that closes it, which are no longer than
/// lines may be.
pub fn generated_lines()
    ensures lines { (n : ℕ) → lines_of (input_of n) ≡ generated n }
    ensures count { (n : ℕ) → length (generated n) ≡ suc n }
    ensures short { (n : ℕ) → n < 2 ^ 32 → AllByRecursion (λ line. length line ≤ max_line) (generated n) }
{}

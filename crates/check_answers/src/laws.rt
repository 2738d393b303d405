//! Laws, as contracts of calls that do nothing.

ghost use Rattle.std.specs.Prelude.{◌≡◌, ◌⊎◌, ℕ, List};
ghost use Rattle.cub_proto.specs.declared.budget.Budget.{Budget};
ghost use Rattle.cub_proto.specs.declared.protocol.Protocol.{Protocol};
ghost use Rattle.check_answers.specs.Checked.{AnswersCheck, TellsNoRun};

/// SAFE and UNSAFE, with or without crashes, never come for one protocol, in any two calls and with any budgets.
pub fn safe_and_unsafe_exclude()
    ensures { (p : Protocol) (a b : Budget) (format other_format other : ℕ) (text another : List ℕ) → AnswersCheck a format p 0 text
        → AnswersCheck b other_format p other another → (other ≡ 1) ⊎ (other ≡ 2) → ⊥ }
{}

/// A protocol has one answer within budgets of the same numbers, but for which run is told where one is.
pub fn answers_are_one()
    ensures { (p : Protocol) (a b : Budget) (format status other : ℕ) (text another : List ℕ) → a.cubes ≡ b.cubes → a.width ≡ b.width
        → TellsNoRun status → AnswersCheck a format p status text → AnswersCheck b format p other another → (status ≡ other) × (text ≡ another) }
{}

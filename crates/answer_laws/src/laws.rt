//! The laws. Each function does nothing, and its contract is proved.

ghost use Rattle.std.specs.Prelude.{◌≡◌, ◌⊎◌, ◌≤◌, ℕ, List, length};
ghost use Rattle.cub_proto.specs.declared.budget.Budget.{Budget};
ghost use Rattle.cub_proto.specs.declared.event.Trace.{Trace};
ghost use Rattle.cub_proto.specs.declared.protocol.Protocol.{Protocol};
ghost use Rattle.log_form.specs.declared.node.Node.{Node};
ghost use Rattle.trace_build.specs.Origins.{IsTraceOfNode};
ghost use Rattle.check_answers.specs.Checked.{AnswersCheck};
ghost use Rattle.answer_laws.specs.Verifies.{text_limit, VerifyAccepts};
ghost use Rattle.answer_laws.specs.Replays.{ReplayAccepts};

/// The certificate that `check` prints with status 0 is read and accepted by `verify`, by the test of its version, where it
/// is within the limit on texts.
pub fn verify_accepts_what_check_prints()
    ensures { (p : Protocol) (budget : Budget) (format : ℕ) (text : List ℕ) → length text ≤ text_limit
        → AnswersCheck budget format p 0 text → VerifyAccepts p budget format text }
{}

/// The trace that `check` prints with status 1 or 2 is read and accepted by `replay`.
pub fn replay_accepts_what_check_prints()
    ensures { (p : Protocol) (budget : Budget) (format status : ℕ) (text : List ℕ) → (status ≡ 1) ⊎ (status ≡ 2)
        → AnswersCheck budget format p status text → ReplayAccepts p status text }
{}

/// A node has one trace at most.
pub fn a_node_has_one_trace()
    ensures { (p : Protocol) (nodes : List Node) (number : ℕ) (t u : Trace) → IsTraceOfNode p nodes number t
        → IsTraceOfNode p nodes number u → t ≡ u }
{}

/// A protocol has one answer within budgets of the same numbers: one status and one text, the run that is told included.
pub fn check_has_one_answer()
    ensures { (p : Protocol) (a b : Budget) (format status other : ℕ) (text another : List ℕ) → a.cubes ≡ b.cubes → a.width ≡ b.width
        → AnswersCheck a format p status text → AnswersCheck b format p other another → (status ≡ other) × (text ≡ another) }
{}

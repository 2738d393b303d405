//! Laws, as contracts of calls that do nothing.

ghost use Rattle.std.specs.Prelude.{◌≡◌};
ghost use Rattle.cub_proto.specs.declared.protocol.Protocol.{Protocol};
ghost use Rattle.cub_proto.specs.declared.budget.Budget.{Budget};
ghost use Rattle.log_form.specs.Log.{LogValue};
ghost use Rattle.crew.specs.Search.{IsSearch};

/// The log of a search by one worker is a function of the protocol and the budget.
pub fn one_worker_has_one_log()
    ensures { (p : Protocol) (budget : Budget) (a b : LogValue) → IsSearch p budget a → IsSearch p budget b → a ≡ b }
{}

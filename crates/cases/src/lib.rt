// The worked cases.
#![tactic(auto)]

ghost use Rattle.std.specs.Prelude.{◌≡◌};
ghost use Rattle.cases.specs.Cases.{told, wanted};

// Carries the worked cases as its contract: what the definitions give is what the rules say. It does nothing.
pub fn worked_cases()
    ensures { told ≡ wanted }
{}

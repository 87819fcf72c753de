// Cases of which the outcome is known beforehand, as a theorem.
#![tactic(auto)]

ghost use Rattle.known.specs.Cases.{KnownCases};

// The known cases. The call does nothing: its contract says them.
pub fn known_cases()
    ensures { KnownCases }
{}

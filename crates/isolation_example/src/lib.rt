// Demand 3 is not empty: two runs in which all that it supposes holds.
#![tactic(auto)]

ghost use Rattle.isolation_example.specs.Example.{Example};

// The runs, what they are fed, and that what is observed is alike.
pub fn isolation_example()
    ensures { Example }
{}

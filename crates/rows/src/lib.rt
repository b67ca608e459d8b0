// Tables of rows, computed of the definitions: the bench cases, the misreadings, DELAYUNTIL, scaling, shares.
#![tactic(auto)]

ghost use Rattle.rows.specs.Cases.{Bench, Delays, Misreadings, Scalings};
ghost use Rattle.rows.specs.ShareRows.{Shares};

// Document 01: the bench cases K1 to K12, "Proved together, in one table with one statement".
pub fn bench()
    ensures { Bench }
{}

// Document 01: the 'Misreadings of the guide', each ruled out by a program that shows it.
pub fn misreadings()
    ensures { Misreadings }
{}

// Document 02, Q-4: the request's own wait across 32,767, and the edges of the rule.
pub fn delays()
    ensures { Delays }
{}

// Document 02, Q-3: the order of the operands of CONSTRAIN, MAP and POW, and of their faults.
pub fn scalings()
    ensures { Scalings }
{}

// Document 02, Q-9: what rounds print and leave where processes have shares.
pub fn shares()
    ensures { Shares }
{}

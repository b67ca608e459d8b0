// Document 02, Q-3: what CONSTRAIN, MAP and POW answer.
#![tactic(auto)]

pub mod constrain;
pub mod map;
pub mod power;

ghost use Rattle.scaling.specs.Meaning.{ConstrainsBetween, MapsEnds};
ghost use Rattle.scaling.specs.Rows.{ScalingRows};

// Rows of all three, by computing the definitions.
pub fn scaling_rows()
    ensures { ScalingRows }
{}

// MAP on whole numbers takes b to d and c to e, before the result is reduced.
pub fn maps_ends()
    ensures { MapsEnds }
{}

// CONSTRAIN on INTs gives x, or the bound that it passes.
pub fn constrains_between()
    ensures { ConstrainsBetween }
{}

// Two pairs of buffers that differ in places on the disc alone print the same.
#![tactic(auto)]

ghost use Rattle.views.specs.Same.{SameOnBoth};

pub fn same_on_both()
    ensures { SameOnBoth }
{}

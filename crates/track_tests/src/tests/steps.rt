//! A counter of steps, as a program makes it.
ghost use Rattle.std.specs.Prelude.{◌≡◌, ◌+◌, ◌<◌};

use outside_io::Steps;
use std::marker::Brand;
use std::sync::ledger::{Blank, Ledger};

fn two_steps<L: Ledger>(steps: &mut Steps<L>)
    ensures { steps.new ≡ steps.old + 2 }
{
    steps.tick();
    steps.tick();
}

fn end_at_two<L: Ledger>(_steps: Steps<L>)
    requires { _steps ≡ 2 }
{}

// What a program does with its counter. No type that names `L` stands in its signature, so its
// caller may pick the ledger.
fn program<L: Ledger>(blank: Blank)
    requires name { blank.name ≡ L.name }
    requires parts { blank.parts ≡ L.parts }
    requires some { 0 < blank.parts }
{
    let mut steps = Steps::<L>::new(blank);
    two_steps(&mut steps);
    end_at_two(steps);
}

// The pick stands in this test's `Invariants.antt`.
#[test]
fn a_caller_makes_a_counter() {
    program::<Brand>(Blank::new(1));
}

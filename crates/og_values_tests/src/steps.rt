ghost use Rattle.std.specs.Prelude.{◌≡◌, ◌<◌};

use og_steps::Steps;
use std::marker::Brand;
use std::mem;
use std::sync::ledger::{Blank, Ledger};

/// Three steps over a ledger of their own, and how many bytes they take.
fn three<L: Ledger>(blank: Blank) -> usize
    requires name { blank.name ≡ L.name }
    requires parts { blank.parts ≡ L.parts }
    requires some { 0 < L.parts }
{
    let mut steps = Steps::<L>::start(blank);
    for _ in 0..3 {
        steps.tick();
    }
    mem::size_of::<Steps<L>>()
}

#[test]
fn takes_no_bytes(rt: HostRuntime) {
    assert_eq!(rt; three::<Brand>(Blank::new(1)), 0);
}

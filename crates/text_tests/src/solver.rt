//! A solver through its calls.

ghost use Rattle.std.specs.Prelude.{◌≡◌, true, false};

use sat_clause::Lit;
use sat_core::{ListRecorder, Solver};
use std::test::Fail;

fn pos(var: u32) -> Lit
    ensures { result ≡ record { var = var; negated = false } }
{
    Lit {
        var,
        negated: false,
    }
}

fn neg(var: u32) -> Lit
    ensures { result ≡ record { var = var; negated = true } }
{
    Lit { var, negated: true }
}

#[test]
fn a_literal_is_refuted_by_its_negation_alone(rt: HostRuntime) -> Result<(), Fail> {
    let alloc = rt.alloc();
    let mut solver = Solver::new(alloc, ListRecorder::new(alloc), 2)?;
    assert_eq!(rt; solver.add_clause(&[], &[pos(1), pos(2)])?, 1);
    assert!(rt; !solver.is_refuted(pos(1)));
    assert_eq!(rt; solver.add_clause(&[], &[neg(1)])?, 2);
    assert!(rt; solver.is_refuted(pos(1)));
    assert!(rt; !solver.is_refuted(neg(1)));
    assert!(rt; !solver.is_refuted(pos(2)));
    Ok(())
}

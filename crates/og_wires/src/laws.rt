//! What the definition of the wiring says of every program. No call here does anything: its clause is the law.
ghost use Rattle.og_syntax.specs.declared.declarations.Program.{Program};
ghost use Rattle.og_wires.specs.Sites.{Blocks};
ghost use Rattle.og_wires.specs.Programs.{IsWired, HasMain};

/// A program that breaks no rule has a game `main` without parameters and without ports, which is no larger than it may be.
#[tactic(auto, using(crate::proofs::Accepted::has_main))]
pub fn accepted_programs()
    ensures { (blocks : Blocks) (p : Program) → (wired : IsWired blocks p) → HasMain wired.known }
{}

//! What holds of the definitions. The function does nothing: its contract is the law.

ghost use Rattle.std.specs.Prelude.{◌↔◌, IsTrue, List};
ghost use Rattle.og_small.specs.declared.tree.Section.{Section};
ghost use Rattle.og_small.specs.declared.tree.SmallGame.{SmallGame};
ghost use Rattle.og_small.specs.Rules.{fits};
ghost use Rattle.og_small.specs.Accepted.{Fits};

/// What `fits` answers: a strategy fits exactly where it has one section for each line, in order, and
/// each names its line's agent and a case of its type.
pub fn fitting_strategies()
    ensures { (g : SmallGame) (sections : List Section) → IsTrue (fits g sections) ↔ Fits g sections }
{}

//! Laws of accepted forms. No call here does anything: its clauses are the laws.
ghost use Rattle.std.specs.Prelude.{◌≡◌, ℕ, true, List, Some, Ok, IsSomeAnd};
ghost use Rattle.og_game.specs.Rows.{are_rows, are_allowed};
ghost use Rattle.og_game.specs.Wired.{observations, values};
ghost use Rattle.og_syntax.specs.declared.games.Among.{Among};
ghost use Rattle.og_syntax.specs.declared.values.RowTree.{RowTree};
ghost use Rattle.og_names.specs.Names.{lookup};
ghost use Rattle.og_typing.specs.declared.meaning.Meaning.{Meaning};
ghost use Rattle.og_typing.specs.Types.{Table};
ghost use Rattle.og_wires.specs.declared.rows.Choice.{Choice};
ghost use Rattle.og_wires.specs.Rows.{weights_walk, among_walk};
ghost use Rattle.og_rows.specs.Rows.{have_table, drawn, allowed};

/// Accepted rows have a table by rank, also where more names are declared: that of a nature gives each observation weights that
/// add up to the scale, and that of a decision gives each observation a set of actions.
pub fn rows()
    ensures drawn { (before declared : Table Meaning)
        → ((name : List ℕ) (m : Meaning) → lookup name before ≡ Some m → lookup name declared ≡ Some m)
        → (choice : Choice) → have_table choice.observes choice.chosen ≡ true
        → (at scale : ℕ) (rows : List RowTree) → weights_walk before choice at rows ≡ Ok scale
        → IsSomeAnd (drawn declared choice.observes choice.chosen scale rows)
        (λ table. are_rows (observations choice.observes) (values choice.chosen) scale table ≡ true) }
    ensures allowed { (before declared : Table Meaning)
        → ((name : List ℕ) (m : Meaning) → lookup name before ≡ Some m → lookup name declared ≡ Some m)
        → (choice : Choice) → have_table choice.observes choice.chosen ≡ true
        → (among : Among) → among_walk before choice among ≡ Ok tt
        → IsSomeAnd (allowed declared choice.observes choice.chosen among.rows)
        (λ sets. are_allowed (observations choice.observes) (values choice.chosen) (Some sets) ≡ true) }
{}

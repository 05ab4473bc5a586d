ghost use Rattle.std.specs.Prelude.{List, Option};
ghost use Rattle.og_types.specs.declared.value.Value.{Value};

/// What a block does: two meanings, which may have no value.
pub trait Law {
    /// From inputs to outputs.
    ghost forward: { Self → List Value → Option (List Value) };

    /// From inputs and returns to feedback.
    ghost backward: { Self → List Value → List Value → Option (List Value) };
}

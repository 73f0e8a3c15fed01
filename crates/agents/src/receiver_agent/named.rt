use std::marker::Brand;

/// Names the counters of a receiver, for the proofs alone. Each caller picks them, by `Brand`.
pub trait Named {
    ghost use Rattle.atomic_table.specs.Seated.{TableId};

    ghost counters: { TableId };
}

impl Named for Brand {
    ghost use Rattle.agents.specs.Publishing.{no_counters};

    ghost counters = { no_counters };
}

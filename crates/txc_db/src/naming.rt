use std::marker::Brand;

/// Type-level identity of the histories of a program: the database's, and by its number each node's. The
/// content of a lock is known by its type only, so each type with a lock has a parameter with this bound, as
/// has each type built on it. A program makes its logs and append tokens first, and then calls generic code at
/// [`Brand`] with these identities.
pub trait Naming {
    ghost use Rattle.std.specs.Prelude.{ℕ};
    ghost use Rattle.txc_stream.specs.Names.{Name};

    ghost database_history: { Name };

    ghost node_histories: { ℕ → Name };
}

impl Naming for Brand {
    ghost use Rattle.std.specs.Prelude.{[]};
    ghost use Rattle.txc_stream.specs.Names.{stored};

    ghost database_history = { stored [] };

    ghost node_histories = { λ n. stored [] };
}

ghost use Rattle.std.specs.Prelude.{◌≡◌};

// A join: an operation that takes two values together, and a value that adds nothing.
pub trait Join: Copy {
    const NONE: Self;

    // Clauses know the constant by the ghost member of its name.
    ghost NONE: { Self };

    ghost op: { Self → Self → Self };

    fn join(self, other: Self) -> Self
        ensures { result ≡ op self other };

    ghost unit: { (x : Self) → op NONE x ≡ x };

    ghost idem: { (x : Self) → op x x ≡ x };

    ghost comm: { (x y : Self) → op x y ≡ op y x };

    ghost assoc: { (x y z : Self) → op (op x y) z ≡ op x (op y z) };
}

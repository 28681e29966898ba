ghost use Rattle.std.specs.FinMap.{IsAntisymmetric};

/// Keys of which only equal ones tie: `a.cmp(&b)` is `Equal` for no two that differ.
pub trait MapKey: Ord {
    ghost only_equal_tie: { IsAntisymmetric Self.cmp };
}

impl MapKey for u16 {
    ghost use Rattle.std.specs.FinMap.{nat_cmp-IsAntisymmetric};

    ghost only_equal_tie = { nat_cmp-IsAntisymmetric };
}

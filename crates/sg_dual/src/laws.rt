//! Laws of duality over any family of columns, each as the contract of a function that does nothing.

ghost use Rattle.sg_dual.specs.Duality.{PointIsOptimal, StrongDuality, WeakDuality};

/// No primal solution costs more than a dual one allows.
pub fn weak_duality()
    ensures { WeakDuality }
{}

/// At a final state the point and the multipliers have one value.
pub fn strong_duality()
    ensures { StrongDuality }
{}

/// So no primal solution has a greater value than the point.
pub fn point_is_optimal()
    ensures { PointIsOptimal }
{}

//! Laws about lists of operations, as the contract of a function that does nothing.

ghost use Rattle.sg_num.specs.Operations.{FirstWideIsFirst, FormedIsFirst, NoneWideFits, ResultsFitWhereFormed};

/// The laws of the operation that is told of a list: it does not fit, and each one before it does.
pub fn first_wide_is_first()
    ensures first { FirstWideIsFirst }
    ensures none { NoneWideFits }
    ensures formed { FormedIsFirst }
    ensures results { ResultsFitWhereFormed }
{}

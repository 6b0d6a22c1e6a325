// Single exact steps on `i128`, and the two combinations that the layers above want most.
ghost use Rattle.std.specs.Prelude.{◌≡◌, ◌+ℤ◌, ◌-ℤ◌, ◌*ℤ◌, IfOk};
ghost use Rattle.sg_num.specs.Exact.{exact_sum, exact_less, exact_times, exact_dot_step, exact_mul_sub};

/// An operation on two operands.
#[derive(Clone, Copy, PartialEq, Eq, Debug)]
pub enum Op {
    /// `left + right`
    Sum,
    /// `left - right`
    Less,
    /// `left * right`
    Times,
}

/// An operation whose exact result lies outside `i128`, with its operands.
#[derive(Clone, Copy, PartialEq, Eq, Debug)]
pub struct Wide {
    /// The operation.
    pub op: Op,
    /// Its left operand.
    pub left: i128,
    /// Its right operand.
    pub right: i128,
}

/// The exact sum, or `Wide` where it does not fit.
pub fn sum(left: i128, right: i128) -> Result<i128, Wide>
    ensures { result ≡ exact_sum left right }
{
    match left.checked_add(right) {
        Some(value) => Ok(value),
        None => Err(Wide {
            op: Op::Sum,
            left,
            right,
        }),
    }
}

/// The exact difference, or `Wide` where it does not fit.
pub fn less(left: i128, right: i128) -> Result<i128, Wide>
    ensures { result ≡ exact_less left right }
{
    match left.checked_sub(right) {
        Some(value) => Ok(value),
        None => Err(Wide {
            op: Op::Less,
            left,
            right,
        }),
    }
}

/// The exact product, or `Wide` where it does not fit.
pub fn times(left: i128, right: i128) -> Result<i128, Wide>
    ensures { result ≡ exact_times left right }
{
    match left.checked_mul(right) {
        Some(value) => Ok(value),
        None => Err(Wide {
            op: Op::Times,
            left,
            right,
        }),
    }
}

/// `acc + a * b`, or `Wide` for the product where it does not fit, else for the sum.
pub fn dot_step(acc: i128, a: i128, b: i128) -> Result<i128, Wide>
    ensures value { IfOk result (λ v. v ≡ acc +ℤ a *ℤ b) }
    ensures steps { result ≡ exact_dot_step acc a b }
{
    let product = times(a, b)?;
    sum(acc, product)
}

/// `a * p - q * b`, or `Wide` for the first of `a * p`, `q * b` and their difference that does not
/// fit.
pub fn mul_sub(a: i128, p: i128, q: i128, b: i128) -> Result<i128, Wide>
    ensures value { IfOk result (λ v. v ≡ a *ℤ p -ℤ q *ℤ b) }
    ensures steps { result ≡ exact_mul_sub a p q b }
{
    let left = times(a, p)?;
    let right = times(q, b)?;
    less(left, right)
}

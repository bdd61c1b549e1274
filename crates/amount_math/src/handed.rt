//! What a call answers with that hands back what it was given where it is refused. Each is generic in what
//! it hands on, so that letting that go is proved once.

ghost use Rattle.std.specs.Prelude.{◌≡◌, ◌⊎◌, Err, IfOk, IfErr, IsErr, IsOk, IsTrue};

/// The first of the two that is to be taken, or both handed back where neither is.
pub(crate) fn choose<T: Drop>(is_left: bool, is_right: bool, left: T, right: T) -> Result<T, (T, T)>
    ensures ok { IfOk result (λ one. (IsTrue is_left × (one ≡ left)) ⊎ (IsTrue is_right × (one ≡ right))) }
    ensures back { IfErr result (λ (back, other). (back ≡ left) × (other ≡ right)) }
    ensures neither { IsErr result → ¬ IsTrue is_left × ¬ IsTrue is_right }
{
    if is_left {
        Ok(left)
    } else if is_right {
        Ok(right)
    } else {
        Err((left, right))
    }
}

/// Done, and what was put in is let go, or handed back with the fault.
pub(crate) fn or_back<T: Drop, E>(done: Result<(), E>, put_in: T) -> Result<(), (T, E)>
    ensures ok { IsOk result → IsOk done }
    ensures err { IfErr result (λ (back, fault). (back ≡ put_in) × (done ≡ Err fault)) }
{
    match done {
        Ok(()) => Ok(()),
        Err(fault) => Err((put_in, fault)),
    }
}

/// The left, on which it is done, and the right is let go, or both handed back with the fault.
pub(crate) fn or_both<T: Drop, E>(done: Result<(), E>, left: T, right: T) -> Result<T, (T, T, E)>
    ensures ok { IfOk result (λ one. one ≡ left) }
    ensures done { IsOk result → IsOk done }
    ensures err { IfErr result (λ (back, other, fault). (back ≡ left) × (other ≡ right) × (done ≡ Err fault)) }
{
    match done {
        Ok(()) => Ok(left),
        Err(fault) => Err((left, right, fault)),
    }
}

//! Numbers of which the first ones are mostly 0, 1, 2 and so on.

ghost use Rattle.std.specs.Prelude.{◌≡◌, ◌+◌, ◌<◌, ◌≤◌, ◌^◌, ◌++◌, ◌∷◌, [], length, slice_index_or, vec_len, vec_capacity};
ghost use Rattle.pt_history.specs.Numbers.{numbers_with};

/// Appends a number. It is only counted if it is the number of numbers before it, and so are all of those.
#[inline(always)]
pub(crate) fn push_number(in_order: &mut usize, stored: &mut Vec<u32>, number: u32)
    requires { vec_len stored.old < vec_capacity stored.old }
    ensures numbers { numbers_with in_order.new stored.new.items
        ≡ numbers_with in_order.old stored.old.items ++ number ∷ [] }
    ensures room { vec_capacity stored.old ≤ vec_capacity stored.new }
    ensures few_stored { vec_len stored.new ≤ vec_len stored.old + 1 }
    ensures few { in_order.new + vec_len stored.new ≤ in_order.old + vec_len stored.old + 1 }
{
    if stored.is_empty() && number as usize == *in_order {
        *in_order += 1;
        return;
    }
    stored.push_reserved(number);
}

/// The number at an index, counted from 0.
#[inline(always)]
pub(crate) fn number_at(in_order: usize, stored: &[u32], index: usize) -> u32
    requires fits { in_order + length stored.now < 2 ^ 32 }
    requires within { index < in_order + length stored.now }
    ensures { result ≡ slice_index_or (numbers_with in_order stored.now) index 0 }
{
    if index < in_order {
        return index as u32;
    }
    stored[index - in_order]
}

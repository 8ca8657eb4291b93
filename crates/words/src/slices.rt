// Words read, copied and put in place. What a slice holds afterwards is said for every word of it.
ghost use Rattle.std.specs.Prelude.{◌≡◌, ◌+◌, ◌-◌, ◌≤◌, length, replicate, get_or};
ghost use Rattle.theory.specs.Buffers.{over, put};

// What stands at a place; past the end, what is given for none.
pub fn get_or<T: Copy>(items: &[T], at: usize, none: T) -> T
    ensures { result ≡ get_or items.now at none }
{
    items.get(at).copied().unwrap_or(none)
}

// dst begins with src; the rest of dst is unchanged.
#[tactic(auto, using(crate::proofs::Writes::length_over, crate::proofs::Writes::over_more))]
pub fn copy_into(dst: &mut [u16], src: &[u16])
    requires { length src.now ≤ length dst.old }
    ensures { dst.new ≡ over src.now dst.old }
{
    for i in 0..src.len() {
        dst[i] = src[i];
    }
}

// src stands in dst from the place `at` on; the rest of dst is unchanged.
pub fn put(dst: &mut [u16], at: usize, src: &[u16])
    requires { at + length src.now ≤ length dst.old }
    ensures { dst.new ≡ put at src.now dst.old }
{
    copy_into(&mut dst[at..], src);
}

// Zeros from index `from` up to, not including, `to`.
pub fn zero_from(dst: &mut [u16], from: usize, to: usize)
    requires { (from ≤ to) × (to ≤ length dst.old) }
    ensures { dst.new ≡ put from (replicate (to - from) 0) dst.old }
{
    dst[from..to].fill(0);
}

// A copy of a point's few numbers.
ghost use Rattle.std.specs.Prelude.{◌≡◌, length};

// By the entry: std's `copy_from_slice` is a call, and an update of `EllStable`, which makes three, takes 6 % more with it at n = 2.
pub(crate) fn copy_into(src: &[f64], out: &mut [f64])
    requires { length out.old ≡ length src.now }
    ensures { out.new ≡ src.now }
{
    for i in 0..src.len() {
        out[i] = src[i];
    }
}

//! Texts put one after the other.

ghost use Rattle.std.specs.Prelude.{◌≡◌, ◌+◌, ◌≤◌, ◌++◌, length, take, drop};

/// Writes the text at `at`, and says where it ends.
pub(crate) fn put(out: &mut [u8], at: usize, text: &[u8]) -> usize
    requires { at + length text.now ≤ length out.old }
    ensures end { result ≡ at + length text.now }
    ensures prefix { take result out.new ≡ take at out.old ++ text.now }
    ensures rest { drop result out.new ≡ drop result out.old }
{
    let end = at + text.len();
    out[at..end].copy_from_slice(text);
    end
}

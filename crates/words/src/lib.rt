// Words written into a list.

#![tactic(auto)]

ghost use Rattle.std.specs.Prelude.{◌≡◌, ◌+◌, ◌≤◌, length};
ghost use Rattle.words.specs.Stored.{stored};

// The values go into a list from place `at` on.
pub fn store(list: &mut [u32], at: usize, values: &[u32])
    requires { at + length values.now ≤ length list.old }
    ensures { list.new ≡ stored values.now at (length values.now) list.old }
{
    list[at..at + values.len()].copy_from_slice(values);
}

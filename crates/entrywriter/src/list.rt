// Lists of numbers that are made part by part.
ghost use Rattle.std.specs.Prelude.{◌≡◌, ◌+◌, ◌≤◌, ◌++◌, length};
ghost use Rattle.upto.specs.Listed.{listed};

use upto::UpTo;

// Appends numbers to a list that has room for them.
pub(crate) fn append<const N: usize>(list: &mut UpTo<u32, N>, numbers: &[u32])
    requires { length (listed list.old) + length numbers.now ≤ N }
    ensures { listed list.new ≡ listed list.old ++ numbers.now }
{
    for number in numbers {
        list.push(*number).unwrap();
    }
}

ghost use Rattle.std.specs.Prelude.{◌≡◌, ◌+◌, IfOk};

use tl_base::NoMemory;

/// The sum. A number past the last of 64 bits is want of memory.
pub fn sum(a: u64, b: u64) -> Result<u64, NoMemory>
    ensures { IfOk result (λ n. n ≡ a + b) }
{
    a.checked_add(b).ok_or(NoMemory)
}

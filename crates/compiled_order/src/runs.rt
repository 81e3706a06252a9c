// Written by tools/compile_plan.py: change the plan or the compiler, not this file.
// The plan of the larger number: its linear runs on one share, and the words between them.
ghost use Rattle.std.specs.Prelude.{◌≡◌, ◌<◌, get_or, length};
ghost use Rattle.compiled.specs.inner.OnShare.{on_share_all};
ghost use Rattle.compiled_order.specs.inner.Runs.{gates, last_run, runs};

use compiled::linear::{linear, two};

// Run k on share i.
pub(crate) fn on_share(k: usize, i: usize, cells: &mut [u64])
    requires { (i < 8) × (length cells.old ≡ 512) }
    ensures { cells.new ≡ on_share_all i (get_or runs k last_run) cells.old }
{
    match k {
        0 => {
            two(0x400C0200, 0x10100001, i, cells);
        }
        1 => {}
        2 => {
            two(0x6014063F, 0x70140A00, i, cells);
            linear(0x20180001, i, cells);
        }
        _ => {
            two(0x20080006, 0x201C0206, i, cells);
        }
    }
}

// The word after run k.
pub(crate) fn gate(k: usize) -> u32
    requires { k < 3 }
    ensures { result ≡ get_or gates k 0 }
{
    match k {
        0 => 0x800C0604,
        1 => 0x800C0003,
        _ => 0x30180C05,
    }
}

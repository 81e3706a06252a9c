// Written by tools/compile_plan.py: change the plan or the compiler, not this file.
// Truncation's plan: its linear runs on one share, and the words between them.
ghost use Rattle.std.specs.Prelude.{◌≡◌, ◌<◌, get_or, length};
ghost use Rattle.compiled.specs.inner.OnShare.{on_share_all};
ghost use Rattle.compiled_truncate.specs.inner.Runs.{gates, last_run, runs};

use compiled::linear::{eight, four, linear, sixteen, two};

// Run k on share i.
pub(crate) fn on_share(k: usize, i: usize, cells: &mut [u64])
    requires { (i < 8) × (length cells.old ≡ 512) }
    ensures { cells.new ≡ on_share_all i (get_or runs k last_run) cells.old }
{
    match k {
        0 => {
            sixteen(
                0x50580006, 0x60582C3A, 0x505C0001, 0x605C2E3B, 0x10300000, 0x40301800, 0x50301820,
                0x600C2C05, 0x700C0600, 0x202C060C, 0x602C160C, 0x502C160C, 0x600C063F, 0x500C0608,
                0x202C1603, 0x600C1810, i, cells,
            );
            sixteen(
                0x20301803, 0x600C2C04, 0x700C0600, 0x2028060C, 0x6028140C, 0x5028140C, 0x600C063F,
                0x500C0608, 0x20281403, 0x600C1808, 0x20301803, 0x600C2C03, 0x700C0600, 0x2024060C,
                0x6024120C, 0x5024120C, i, cells,
            );
            sixteen(
                0x600C063F, 0x500C0608, 0x20241203, 0x600C1804, 0x20301803, 0x600C2C02, 0x700C0600,
                0x200C060C, 0x600C0638, 0x202C1603, 0x600C1802, 0x20301803, 0x600C2C01, 0x700C0600,
                0x200C060C, 0x600C0638, i, cells,
            );
            sixteen(
                0x20281403, 0x600C1801, 0x20301803, 0x600C2C00, 0x700C0600, 0x200C060C, 0x600C0638,
                0x20241203, 0x50102E3E, 0x6010083E, 0x50142E3C, 0x60140A3E, 0x20180805, 0x50100809,
                0x202C1604, 0x50140A09, i, cells,
            );
            linear(0x20281405, i, cells);
        }
        1 => {
            sixteen(
                0x50101A34, 0x500C1A37, 0x6010083D, 0x600C0637, 0x60341A0C, 0x60140801, 0x50341A0C,
                0x20180C04, 0x40180C00, 0x5010083F, 0x501C0C3F, 0x2034060D, 0x6010083F, 0x601C0E3E,
                0x60180C01, 0x50180C3F, i, cells,
            );
            four(0x60180C3E, 0x20140C05, 0x20100E04, 0x50100809, i, cells);
            two(0x20341A04, 0x50140A09, i, cells);
            linear(0x20240A09, i, cells);
        }
        2 => {
            sixteen(
                0x500C1A37, 0x50101A34, 0x60142E04, 0x6010083D, 0x600C0637, 0x60341A0C, 0x50341A0C,
                0x50100809, 0x2034060D, 0x50381A38, 0x604C1A0C, 0x60381C38, 0x500C1C08, 0x2038060E,
                0x500C1C10, 0x20381C03, i, cells,
            );
            sixteen(
                0x500C1C20, 0x20381C03, 0x504C260C, 0x500C1A37, 0x600C063F, 0x204C2603, 0x60501C0C,
                0x500C0601, 0x204C2603, 0x5050280C, 0x500C1C3E, 0x600C063E, 0x204C2604, 0x20502803,
                0x500C0A01, 0x20140605, i, cells,
            );
            four(0x100C0001, 0x20140A03, 0x50140A09, 0x20502805, i, cells);
        }
        3 => {
            eight(
                0x50101A34, 0x6010083D, 0x60140801, 0x500C1A37, 0x5010083F, 0x60341A0C, 0x600C0637,
                0x50341A0C, i, cells,
            );
            four(0x70140A00, 0x2034060D, 0x50140A0C, 0x6010083F, i, cells);
            two(0x20140805, 0x50100801, i, cells);
            linear(0x20140805, i, cells);
        }
        4 => {
            sixteen(
                0x500C1A3F, 0x600C063F, 0x50100633, 0x60201A0D, 0x20201004, 0x601C2E04, 0x401C0E00,
                0x201C0E03, 0x701C0E00, 0x601C0E01, 0x50181000, 0x600C0C01, 0x20180C03, 0x600C0C02,
                0x20180C03, 0x600C0C04, i, cells,
            );
            eight(
                0x20180C03, 0x600C0C08, 0x20180C03, 0x600C0C10, 0x20180C03, 0x600C0C20, 0x20180C03,
                0x200C0C07, i, cells,
            );
            linear(0x400C0600, i, cells);
        }
        _ => {}
    }
}

// The word after run k.
pub(crate) fn gate(k: usize) -> u32
    requires { k < 5 }
    ensures { result ≡ get_or gates k 0 }
{
    match k {
        0 => 0x3034160A,
        1 => 0x30341A09,
        2 => 0x30342614,
        3 => 0x30341A05,
        _ => 0x30080003,
    }
}

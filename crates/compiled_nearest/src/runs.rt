// Written by tools/compile_plan.py: change the plan or the compiler, not this file.
// Nearest's plan: its linear runs on one share, and the words between them.
ghost use Rattle.std.specs.Prelude.{◌≡◌, ◌<◌, get_or, length};
ghost use Rattle.compiled.specs.inner.OnShare.{on_share_all};
ghost use Rattle.compiled_nearest.specs.inner.Runs.{gates, last_run, runs};

use compiled::linear::{eight, four, linear, sixteen, two};

// Run k on share i.
pub(crate) fn on_share(k: usize, i: usize, cells: &mut [u64])
    requires { (i < 8) × (length cells.old ≡ 512) }
    ensures { cells.new ≡ on_share_all i (get_or runs k last_run) cells.old }
{
    match k {
        0 => {
            sixteen(
                0x50580006, 0x60582C3A, 0x505C0001, 0x605C2E3B, 0x10300000, 0x40301800, 0x50301820,
                0x600C2C05, 0x700C0600, 0x202C060C, 0x602C160C, 0x502C160C, 0x600C063F, 0x500C0608,
                0x202C1603, 0x600C1810, i, cells,
            );
            sixteen(
                0x20301803, 0x600C2C04, 0x700C0600, 0x2028060C, 0x6028140C, 0x5028140C, 0x600C063F,
                0x500C0608, 0x20281403, 0x600C1808, 0x20301803, 0x600C2C03, 0x700C0600, 0x2024060C,
                0x6024120C, 0x5024120C, i, cells,
            );
            sixteen(
                0x600C063F, 0x500C0608, 0x20241203, 0x600C1804, 0x20301803, 0x600C2C02, 0x700C0600,
                0x200C060C, 0x600C0638, 0x202C1603, 0x600C1802, 0x20301803, 0x600C2C01, 0x700C0600,
                0x200C060C, 0x600C0638, i, cells,
            );
            sixteen(
                0x20281403, 0x600C1801, 0x20301803, 0x600C2C00, 0x700C0600, 0x200C060C, 0x600C0638,
                0x20241203, 0x50102E3E, 0x6010083E, 0x50142E3C, 0x60140A3E, 0x20180805, 0x50100809,
                0x202C1604, 0x50140A09, i, cells,
            );
            linear(0x20281405, i, cells);
        }
        1 => {
            sixteen(
                0x500C1A37, 0x50101A34, 0x60341A0C, 0x6010083D, 0x60140801, 0x20180806, 0x5010083F,
                0x40180C00, 0x501C0C3F, 0x601C0E3E, 0x6010083F, 0x20100807, 0x60180C01, 0x50180C3F,
                0x50100809, 0x50341A0C, i, cells,
            );
            four(0x600C0637, 0x60180C3E, 0x2034060D, 0x20140C05, i, cells);
            two(0x50140A09, 0x20240A09, i, cells);
            linear(0x2034080D, i, cells);
        }
        2 => {
            sixteen(
                0x50101A34, 0x500C1A37, 0x600C0637, 0x60341A0C, 0x6010083D, 0x50341A0C, 0x2034060D,
                0x50381A38, 0x60381C38, 0x604C1A0C, 0x500C1C08, 0x2038060E, 0x500C1C10, 0x20381C03,
                0x500C1C20, 0x504C260C, i, cells,
            );
            sixteen(
                0x2038060E, 0x500C1A37, 0x600C063F, 0x204C0613, 0x500C0601, 0x204C0613, 0x50100809,
                0x204C2604, 0x60501C0C, 0x500C1C3E, 0x60142E04, 0x5050280C, 0x600C063E, 0x20500614,
                0x500C0A01, 0x20140A03, i, cells,
            );
            four(0x100C0001, 0x20140A03, 0x50140A09, 0x20500A14, i, cells);
        }
        3 => {
            eight(
                0x50101A34, 0x500C1A37, 0x60341A0C, 0x6010083D, 0x600C0637, 0x60140801, 0x70140A00,
                0x50140A0C, i, cells,
            );
            four(0x5010083F, 0x50341A0C, 0x6010083F, 0x20140A04, i, cells);
            two(0x50100801, 0x20140805, i, cells);
            linear(0x20341A03, i, cells);
        }
        4 => {
            sixteen(
                0x500C1A3F, 0x600C063F, 0x50100633, 0x60201A0D, 0x20201004, 0x601C2E04, 0x401C0E00,
                0x201C0E03, 0x701C0E00, 0x601C0E01, 0x50181000, 0x600C0C01, 0x20180C03, 0x600C0C02,
                0x20180C03, 0x600C0C04, i, cells,
            );
            eight(
                0x20180C03, 0x600C0C08, 0x20180C03, 0x600C0C10, 0x20180C03, 0x600C0C20, 0x20180C03,
                0x200C0C07, i, cells,
            );
        }
        5 => {}
        6 => {
            four(0x5048200C, 0x6048240C, 0x20482415, 0x500C1001, i, cells);
        }
        7 => {
            sixteen(
                0x20482403, 0x600C2A01, 0x20542A03, 0x600C2A02, 0x20542A03, 0x600C2A04, 0x20542A03,
                0x600C2A08, 0x20542A03, 0x600C2A10, 0x20542A03, 0x600C2A20, 0x20542A03, 0x503C1A3E,
                0x603C1E3F, 0x20542A0F, i, cells,
            );
            eight(
                0x400C2A00, 0x500C063F, 0x20482403, 0x20440006, 0x20442210, 0x40442200, 0x200C2212,
                0x500C0620, i, cells,
            );
            four(0x600C0620, 0x204C2203, 0x404C2600, 0x50502220, i, cells);
            two(0x50102400, 0x60100820, i, cells);
            linear(0x20502804, i, cells);
        }
        8 => {
            eight(
                0x50102620, 0x60100820, 0x20482404, 0x204C2604, 0x20442213, 0x200C2212, 0x500C0630,
                0x600C0630, i, cells,
            );
            four(0x204C2203, 0x404C2600, 0x50502210, 0x50102420, i, cells);
            two(0x60100830, 0x20502804, i, cells);
        }
        9 => {
            eight(
                0x50102630, 0x60100830, 0x20482404, 0x204C2604, 0x20442213, 0x200C2212, 0x500C0638,
                0x600C0638, i, cells,
            );
            four(0x204C2203, 0x404C2600, 0x50502208, 0x50102430, i, cells);
            two(0x60100838, 0x20502804, i, cells);
        }
        10 => {
            eight(
                0x50102638, 0x60100838, 0x20482404, 0x204C2604, 0x20442213, 0x200C2212, 0x500C063C,
                0x600C063C, i, cells,
            );
            four(0x204C2203, 0x404C2600, 0x50502204, 0x50102438, i, cells);
            two(0x6010083C, 0x20502804, i, cells);
        }
        11 => {
            eight(
                0x5010263C, 0x6010083C, 0x20482404, 0x204C2604, 0x20442213, 0x200C2212, 0x500C063E,
                0x600C063E, i, cells,
            );
            four(0x204C2203, 0x404C2600, 0x50502202, 0x5010243C, i, cells);
            two(0x6010083E, 0x20502804, i, cells);
        }
        12 => {
            eight(
                0x5010263E, 0x6010083E, 0x20482404, 0x204C2604, 0x20442213, 0x200C2212, 0x500C063F,
                0x600C063F, i, cells,
            );
            four(0x204C2203, 0x404C2600, 0x50502201, 0x5010243E, i, cells);
            two(0x6010083F, 0x20502804, i, cells);
        }
        13 => {
            sixteen(
                0x5010263F, 0x6010083F, 0x20482404, 0x204C2604, 0x20442213, 0x500C2201, 0x400C0600,
                0x200C0606, 0x70101E00, 0x60140836, 0x50140A34, 0x6010083F, 0x20140A04, 0x200C0605,
                0x40482400, 0x20482415, i, cells,
            );
            linear(0x70102400, i, cells);
        }
        _ => {
            two(0x20080010, 0x20080403, i, cells);
        }
    }
}

// The word after run k.
pub(crate) fn gate(k: usize) -> u32
    requires { k < 14 }
    ensures { result ≡ get_or gates k 0 }
{
    match k {
        0 => 0x3034160A,
        1 => 0x30341A09,
        2 => 0x30342614,
        3 => 0x30341A05,
        4 => 0x30400003,
        5 => 0x30540008,
        6 => 0x300C0600,
        7 => 0x304C2614,
        8 => 0x304C2614,
        9 => 0x304C2614,
        10 => 0x304C2614,
        11 => 0x304C2614,
        12 => 0x304C2614,
        _ => 0x300C0604,
    }
}

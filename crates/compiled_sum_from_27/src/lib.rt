// Written by tools/compile_plan.py: change the plan or the compiler, not this file.
// The sum's plan on one share: its linear runs from number 27 on.
#![tactic(auto)]

ghost use Rattle.std.specs.Prelude.{◌≡◌, ◌≤◌, ◌<◌, get_or, length};
ghost use Rattle.compiled.specs.inner.OnShare.{on_share_all};
ghost use Rattle.compiled_sum_from_27.specs.inner.Runs.{last_run, runs};

use compiled::linear::{eight, four, linear, sixteen, two};

// Run k on share i.
pub fn from_27(k: usize, i: usize, cells: &mut [u64])
    requires { (27 ≤ k) × (i < 8) × (length cells.old ≡ 512) }
    ensures { cells.new ≡ on_share_all i (get_or runs k last_run) cells.old }
{
    match k {
        27 => {
            eight(
                0x60341820, 0x50341A20, 0x2028140D, 0x50341820, 0x202C160D, 0x6034143F, 0x20301A0F,
                0x70301800, i, cells,
            );
            two(0x50141601, 0x40140A00, i, cells);
        }
        28 => {
            eight(
                0x50301401, 0x2044120C, 0x20442205, 0x6030063F, 0x2030180D, 0x605C0C3F, 0x205C2E0C,
                0x70301800, i, cells,
            );
            four(0x2044220C, 0x20381C0F, 0x2044220E, 0x50482200, i, cells);
            linear(0x60302401, i, cells);
        }
        29 => {
            two(0x2030180D, 0x2048240C, i, cells);
            linear(0x60302402, i, cells);
        }
        30 => {
            two(0x2030180D, 0x2048240C, i, cells);
            linear(0x60302404, i, cells);
        }
        31 => {
            two(0x2030180D, 0x2048240C, i, cells);
            linear(0x60302408, i, cells);
        }
        32 => {
            two(0x2030180D, 0x2048240C, i, cells);
            linear(0x60302410, i, cells);
        }
        33 => {
            two(0x2030180D, 0x2048240C, i, cells);
            linear(0x60302420, i, cells);
        }
        34 => {
            sixteen(
                0x20301A0C, 0x20481812, 0x40482400, 0x40302400, 0x50502401, 0x504C243F, 0x50582400,
                0x6030183F, 0x604C2634, 0x70301800, 0x60301830, 0x204C260C, 0x60302C20, 0x20581816,
                0x70142C00, 0x50302220, i, cells,
            );
            linear(0x2030220C, i, cells);
        }
        35 => {
            eight(
                0x2044220C, 0x60302820, 0x2050280C, 0x5030283F, 0x6030183A, 0x204C260C, 0x60302C10,
                0x20582C0C, i, cells,
            );
            two(0x70142C00, 0x50302210, i, cells);
            linear(0x20301811, i, cells);
        }
        36 => {
            eight(
                0x2044220C, 0x60302810, 0x2050280C, 0x5030283F, 0x6030183B, 0x204C260C, 0x60302C08,
                0x20582C0C, i, cells,
            );
            two(0x70142C00, 0x50302208, i, cells);
            linear(0x20301811, i, cells);
        }
        37 => {
            eight(
                0x2044220C, 0x60302808, 0x2050280C, 0x5030283F, 0x6030183C, 0x204C260C, 0x60302C04,
                0x20582C0C, i, cells,
            );
            two(0x70142C00, 0x50302204, i, cells);
            linear(0x20301811, i, cells);
        }
        38 => {
            eight(
                0x2044220C, 0x60302804, 0x2050280C, 0x5030283F, 0x6030183D, 0x204C260C, 0x60302C02,
                0x20582C0C, i, cells,
            );
            two(0x70142C00, 0x50302202, i, cells);
            linear(0x20301811, i, cells);
        }
        39 => {
            eight(
                0x2044220C, 0x60302802, 0x2050280C, 0x5030283F, 0x6030183E, 0x204C260C, 0x60302C01,
                0x20582C0C, i, cells,
            );
            two(0x70142C00, 0x50302201, i, cells);
            linear(0x20301811, i, cells);
        }
        40 => {
            sixteen(
                0x2044220C, 0x60302801, 0x2050280C, 0x5030283F, 0x6030183F, 0x204C260C, 0x50600C01,
                0x60603035, 0x40303000, 0x50301830, 0x50342630, 0x2024180D, 0x402C1200, 0x602C1630,
                0x502C1630, 0x50142401, i, cells,
            );
            four(0x20140A12, 0x60140A3F, 0x20301805, 0x5014303F, i, cells);
            two(0x60140A3F, 0x20341A05, i, cells);
        }
        41 => {
            sixteen(
                0x60643001, 0x5010143F, 0x40302400, 0x60281430, 0x50281430, 0x6030183F, 0x6010083F,
                0x2010080C, 0x103003FF, 0x20641819, 0x10300001, 0x20301804, 0x5030180A, 0x2064320C,
                0x40300600, 0x6030183F, i, cells,
            );
            sixteen(
                0x5030180B, 0x2030300C, 0x50301810, 0x20641819, 0x40643200, 0x50341401, 0x40301600,
                0x60301830, 0x50141830, 0x20301805, 0x50141601, 0x60140A30, 0x50643220, 0x20340A0D,
                0x60643220, 0x50143210, i, cells,
            );
            four(0x20301805, 0x60143208, 0x50140A10, 0x20340A0D, i, cells);
        }
        42 => {
            sixteen(
                0x60341830, 0x50341A30, 0x2028140D, 0x50341830, 0x202C160D, 0x50641810, 0x60643220,
                0x40301600, 0x60301830, 0x50141830, 0x20301805, 0x50341402, 0x50141602, 0x60140A30,
                0x20341A05, 0x50143210, i, cells,
            );
            four(0x20301805, 0x60143204, 0x50140A10, 0x20341A05, i, cells);
        }
        43 => {
            sixteen(
                0x60341830, 0x50341A30, 0x2028140D, 0x50341830, 0x202C160D, 0x50641810, 0x60643220,
                0x40301600, 0x60301830, 0x50141830, 0x20301805, 0x50341404, 0x50141604, 0x60140A30,
                0x20341A05, 0x50143210, i, cells,
            );
            four(0x20301805, 0x60143202, 0x50140A10, 0x20341A05, i, cells);
        }
        44 => {
            sixteen(
                0x60341830, 0x50341A30, 0x2028140D, 0x50341830, 0x202C160D, 0x50641810, 0x60643220,
                0x40301600, 0x60301830, 0x50141830, 0x20301805, 0x50341408, 0x50141608, 0x60140A30,
                0x20341A05, 0x50143210, i, cells,
            );
            four(0x20301805, 0x60143201, 0x50140A10, 0x20341A05, i, cells);
        }
        45 => {
            sixteen(
                0x60341830, 0x50341A30, 0x2028140D, 0x50341830, 0x202C160D, 0x50641810, 0x60643220,
                0x50301401, 0x2024120C, 0x50301601, 0x20301809, 0x6060183F, 0x40241200, 0x60241230,
                0x50241234, 0x50302201, i, cells,
            );
            sixteen(
                0x6030180C, 0x2024120C, 0x50241201, 0x60241201, 0x6054220A, 0x50302236, 0x60301836,
                0x6034220B, 0x50341A3F, 0x60341A35, 0x2030180D, 0x60683210, 0x20683412, 0x400C2A00,
                0x500C063F, 0x20481803, i, cells,
            );
            eight(
                0x40441200, 0x200C2212, 0x500C0620, 0x600C0620, 0x204C2203, 0x404C2600, 0x50502220,
                0x50102400, i, cells,
            );
            two(0x60100820, 0x20502804, i, cells);
        }
        46 => {
            eight(
                0x50102620, 0x60100820, 0x20482404, 0x204C2604, 0x20442213, 0x200C2212, 0x500C0630,
                0x600C0630, i, cells,
            );
            four(0x204C2203, 0x404C2600, 0x50502210, 0x50102420, i, cells);
            two(0x60100830, 0x20502804, i, cells);
        }
        47 => {
            eight(
                0x50102630, 0x60100830, 0x20482404, 0x204C2604, 0x20442213, 0x200C2212, 0x500C0638,
                0x600C0638, i, cells,
            );
            four(0x204C2203, 0x404C2600, 0x50502208, 0x50102430, i, cells);
            two(0x60100838, 0x20502804, i, cells);
        }
        48 => {
            eight(
                0x50102638, 0x60100838, 0x20482404, 0x204C2604, 0x20442213, 0x200C2212, 0x500C063C,
                0x600C063C, i, cells,
            );
            four(0x204C2203, 0x404C2600, 0x50502204, 0x50102438, i, cells);
            two(0x6010083C, 0x20502804, i, cells);
        }
        49 => {
            eight(
                0x5010263C, 0x6010083C, 0x20482404, 0x204C2604, 0x20442213, 0x200C2212, 0x500C063E,
                0x600C063E, i, cells,
            );
            four(0x204C2203, 0x404C2600, 0x50502202, 0x5010243C, i, cells);
            two(0x6010083E, 0x20502804, i, cells);
        }
        50 => {
            eight(
                0x5010263E, 0x6010083E, 0x20482404, 0x204C2604, 0x20442213, 0x200C2212, 0x500C063F,
                0x600C063F, i, cells,
            );
            four(0x204C2203, 0x404C2600, 0x50502201, 0x5010243E, i, cells);
            two(0x6010083F, 0x20502804, i, cells);
        }
        51 => {
            eight(
                0x5010263F, 0x6010083F, 0x20482404, 0x204C2604, 0x20442213, 0x500C2201, 0x400C0600,
                0x40482400, i, cells,
            );
            two(0x20482415, 0x70102400, i, cells);
        }
        52 => {
            eight(
                0x20241203, 0x50241201, 0x60241201, 0x500C2E3F, 0x20241203, 0x20603019, 0x40603000,
                0x70603000, i, cells,
            );
            four(0x60603001, 0x40683400, 0x5068343F, 0x2060301A, i, cells);
        }
        _ => {
            four(0x70643200, 0x60643235, 0x50643234, 0x20080419, i, cells);
        }
    }
}

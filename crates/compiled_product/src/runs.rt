// Written by tools/compile_plan.py: change the plan or the compiler, not this file.
// The product's plan: its linear runs on one share, and the words between them.
ghost use Rattle.std.specs.Prelude.{◌≡◌, ◌<◌, get_or, length};
ghost use Rattle.compiled.specs.inner.OnShare.{on_share_all};
ghost use Rattle.compiled_product.specs.inner.Runs.{gates, last_run, runs};

use compiled::linear::{eight, four, linear, shifted, sixteen, two};

// Run k on share i.
pub(crate) fn on_share(k: usize, i: usize, cells: &mut [u64])
    requires { (k < 77) × (i < 8) × (length cells.old ≡ 512) }
    ensures { cells.new ≡ on_share_all i (get_or runs k last_run) cells.old }
{
    match k {
        0 => {
            sixteen(
                0x60280200, 0x70281400, 0x40180200, 0x102C0001, 0x500C000C, 0x40100000, 0x50441634,
                0x600C060C, 0x6028140A, 0x50180C0C, 0x60180C0C, 0x5010080C, 0x200C2203, 0x101C0000,
                0x6010080C, 0x50140800, i, cells,
            );
            two(0x20200A06, 0x2028080A, i, cells);
            linear(0x20240A0A, i, cells);
        }
        52 => {
            eight(
                0x20180A09, 0x2014100A, 0x601C0E01, 0x50240A3F, 0x201C0E09, 0x60140A01, 0x20200A06,
                0x20240A03, i, cells,
            );
        }
        53 => {
            sixteen(
                0x50440001, 0x20181205, 0x20140608, 0x601C0E01, 0x50240A3F, 0x5028000C, 0x201C1207,
                0x60140A01, 0x60442235, 0x50442235, 0x20142205, 0x50440201, 0x60442235, 0x50442235,
                0x20182206, 0x50441635, i, cells,
            );
            four(0x6028140C, 0x20281411, 0x20200A06, 0x20240A0A, i, cells);
        }
        54 => {
            four(0x20180A09, 0x2014100A, 0x601C0E01, 0x50240A3F, i, cells);
            two(0x201C0E09, 0x60140A01, i, cells);
            linear(0x20300A06, i, cells);
        }
        55 => {
            two(0x50441A01, 0x40381800, i, cells);
            linear(0x403C1C00, i, cells);
        }
        56 => {
            two(0x20341A11, 0x50441C01, i, cells);
        }
        57 => {
            two(0x20381C11, 0x403C1C00, i, cells);
            linear(0x50441A02, i, cells);
        }
        58 => {
            two(0x20341A11, 0x50441C02, i, cells);
        }
        59 => {
            two(0x20381C11, 0x403C1C00, i, cells);
            linear(0x50441A04, i, cells);
        }
        60 => {
            two(0x20341A11, 0x50441C04, i, cells);
        }
        61 => {
            two(0x20381C11, 0x403C1C00, i, cells);
            linear(0x50441A08, i, cells);
        }
        62 => {
            two(0x20341A11, 0x50441C08, i, cells);
        }
        63 => {
            two(0x20381C11, 0x403C1C00, i, cells);
            linear(0x50441A10, i, cells);
        }
        64 => {
            two(0x20341A11, 0x50441C10, i, cells);
        }
        65 => {
            eight(
                0x20381C11, 0x40441C00, 0x60442220, 0x50242220, 0x20442209, 0x50201A20, 0x50241C20,
                0x60241220, i, cells,
            );
            linear(0x20201009, i, cells);
        }
        66 => {
            sixteen(
                0x60202220, 0x50201020, 0x20341A08, 0x50202220, 0x20381C08, 0x50441A01, 0x20301811,
                0x60400E3F, 0x5044183F, 0x6044223E, 0x20402011, 0x6044183F, 0x50442202, 0x20402011,
                0x50480E01, 0x6048243F, i, cells,
            );
            sixteen(
                0x20280001, 0x2028140C, 0x60281434, 0x40441400, 0x5044223F, 0x6044223E, 0x20482411,
                0x50441801, 0x6044223F, 0x50442202, 0x20482411, 0x60200E0B, 0x40201000, 0x5020100D,
                0x40201000, 0x60241020, i, cells,
            );
            four(0x50201020, 0x60201020, 0x50442020, 0x20201011, i, cells);
            two(0x50442420, 0x20241211, i, cells);
        }
        67 => {
            sixteen(
                0x600C1020, 0x5010063F, 0x6010083F, 0x5014243F, 0x60140A3F, 0x20140A04, 0x5018203F,
                0x60180C3F, 0x20180C04, 0x503C0C01, 0x20140A0F, 0x503C063E, 0x603C1E3F, 0x5024243E,
                0x6024123F, 0x50241201, i, cells,
            );
            eight(
                0x203C1E09, 0x50201020, 0x60201020, 0x60241010, 0x50440A20, 0x20201011, 0x50441E20,
                0x20241211, i, cells,
            );
        }
        68 => {
            sixteen(
                0x10240400, 0x60141020, 0x40201000, 0x50440001, 0x50201030, 0x60442235, 0x60201030,
                0x50442210, 0x20201011, 0x50440201, 0x60442235, 0x50442220, 0x20202208, 0x60441834,
                0x20441211, 0x60242201, i, cells,
            );
            four(0x20442209, 0x50442235, 0x20202208, 0x40201000, i, cells);
            linear(0x60441008, i, cells);
        }
        69 => {
            linear(0x60441004, i, cells);
        }
        70 => {
            linear(0x60441002, i, cells);
        }
        71 => {
            linear(0x60441001, i, cells);
        }
        72 => {
            sixteen(
                0x5024103F, 0x6024123F, 0x50441201, 0x20241211, 0x403C1000, 0x50441E2F, 0x6044223F,
                0x50442202, 0x20241211, 0x5044100F, 0x6044223F, 0x50442203, 0x20241211, 0x50481E1F,
                0x6048243F, 0x50482402, i, cells,
            );
            eight(
                0x603C0A01, 0x2010080F, 0x203C1E06, 0x50440A3F, 0x6044223F, 0x203C1E11, 0x50440C01,
                0x203C1E11, i, cells,
            );
            four(0x203C1E12, 0x6044183F, 0x50442203, 0x203C1E11, i, cells);
        }
        73 => {
            eight(
                0x20100809, 0x60141201, 0x60440E3F, 0x20140A11, 0x60440E3E, 0x20140A11, 0x50140A3F,
                0x60140A3F, i, cells,
            );
            two(0x70100800, 0x50181C01, i, cells);
            linear(0x40180C00, i, cells);
        }
        74 => {
            sixteen(
                0x203C1806, 0x6040183F, 0x6044183E, 0x20402011, 0x60441030, 0x20402011, 0x5040203F,
                0x6040203F, 0x60480602, 0x60441203, 0x20482411, 0x60441A3F, 0x20482411, 0x50482401,
                0x20402012, 0x5048123D, i, cells,
            );
            eight(
                0x6048243F, 0x50442401, 0x20482411, 0x50181E01, 0x20180C05, 0x20180C0F, 0x50180C0C,
                0x60180C0C, i, cells,
            );
            four(0x70281400, 0x6028140C, 0x50402034, 0x20180C10, i, cells);
            two(0x50482434, 0x20281412, i, cells);
        }
        75 => {
            eight(
                0x50440C0C, 0x6044220C, 0x203C1E11, 0x60180C34, 0x5044163E, 0x203C1E11, 0x70440C00,
                0x60442201, i, cells,
            );
        }
        76 => {
            eight(
                0x60180C01, 0x70180C00, 0x60180C35, 0x50180C34, 0x20080406, 0x20440001, 0x6044223F,
                0x5044223F, i, cells,
            );
            linear(0x20080411, i, cells);
        }
        _ => {
            four(0x20181205, 0x601C0E01, 0x20141408, 0x50240A3F, i, cells);
            shifted(0x60280200, (k - 0) as u32, i, cells);
            four(0x201C0E09, 0x60140A01, 0x70281400, 0x20200C05, i, cells);
            two(0x6028140A, 0x20281404, i, cells);
            linear(0x20240A0A, i, cells);
        }
    }
}

// The word after run k.
pub(crate) fn gate(k: usize) -> u32
    requires { k < 76 }
    ensures { result ≡ get_or gates k 0 }
{
    match k {
        54 => 0x30340A06,
        55 => 0x30441E11,
        56 => 0x30441E11,
        57 => 0x30441E11,
        58 => 0x30441E11,
        59 => 0x30441E11,
        60 => 0x30441E11,
        61 => 0x30441E11,
        62 => 0x30441E11,
        63 => 0x30441E11,
        64 => 0x30441E11,
        65 => 0x30442208,
        66 => 0x30201009,
        67 => 0x30201009,
        68 => 0x30201011,
        69 => 0x30201011,
        70 => 0x30201011,
        71 => 0x30201011,
        72 => 0x3024120F,
        73 => 0x30180C04,
        74 => 0x30180C0A,
        75 => 0x30081E11,
        _ => 0x30241009,
    }
}

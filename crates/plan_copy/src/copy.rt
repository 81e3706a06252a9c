// The built-in plans as one kind of thing, and copying any of them out.
ghost use Rattle.std.specs.Prelude.{◌≡◌, List, ℕ, length};
ghost use Rattle.checks.specs.Answers.{answer_of};
ghost use Rattle.plans.specs.BuiltIns.{BuiltIns};
ghost use Rattle.plan_copy.specs.Copy.{copy_answer, copy_out};

use checks::refusal::{Counts, Refusal};

// A built-in plan, whose words can be written out.
pub trait BuiltIn {
    // Its words.
    ghost plan: { List ℕ };

    // How many they are.
    fn size() -> usize
        ensures { result ≡ length plan };

    // Writes them over as many words.
    fn write(out: &mut [u32])
        requires { length out.old ≡ length plan }
        ensures { out.new ≡ plan };
}

// A table's words over as many, one by one: copied at once, they would need the C library's memcpy.
pub(crate) fn write_table(table: &[u32], out: &mut [u32])
    requires { length out.old ≡ length table.now }
    ensures { out.new ≡ table.now }
{
    for (i, w) in out.iter_mut().enumerate() {
        *w = table[i];
    }
}

// Copies the plan to the front of `out`, unless `out` is too short for it.
pub fn copy<P: BuiltIn>(out: &mut [u32]) -> Result<Counts, Refusal>
    ensures value { (answer_of result ≡ copy_answer P.plan out.old) × (out.new ≡ copy_out P.plan out.old) }
    ensures holds { BuiltIns }
{
    let size = P::size();
    if out.len() < size {
        return Err(Refusal::Length);
    }
    P::write(&mut out[..size]);
    Ok(Counts {
        words: size,
        tape: 0,
    })
}

// The plan reader: the lent plan and the number of the next word. The search that keeps a reader and advances it is `check::first_bad`.
ghost use Rattle.std.specs.Prelude.{◌≡◌, ◌+◌, ◌-◌, ◌<◌, ◌^◌, length};
ghost use Rattle.checks.specs.Reader.{read_at};

#[derive(Clone, Copy)]
pub struct PlanReader<'a> {
    pub plan: &'a [u32],
    pub next: usize,
}

// What stands at a place of a plan: a word, or none at the plan's end.
pub fn read_at(plan: &[u32], at: usize) -> Option<u32>
    ensures { result ≡ read_at plan.now at }
{
    plan.get(at).copied()
}

// How many words a plan has from a place on.
pub fn left_from(plan: &[u32], at: usize) -> usize
    ensures { result ≡ length plan.now - at }
{
    plan.len().saturating_sub(at)
}

// A reader that stands at a word.
pub fn at<'a>(plan: &'a [u32], next: usize) -> PlanReader<'a>
    ensures { (result.plan ≡ plan.entry) × (result.next ≡ next) }
{
    PlanReader { plan, next }
}

// The reader one word on.
pub fn advance<'a>(r: PlanReader<'a>) -> PlanReader<'a>
    requires { r.next + 1 < 2 ^ 64 }
    ensures { (result.plan ≡ r.entry.plan) × (result.next ≡ r.entry.next + 1) }
{
    PlanReader {
        plan: r.plan,
        next: r.next + 1,
    }
}

// The next word, or none at the plan's end.
pub fn next_word<'a>(r: PlanReader<'a>) -> Option<u32>
    ensures { result ≡ read_at r.entry.plan.now r.entry.next }
{
    read_at(r.plan, r.next)
}

// How many words are left.
pub fn left<'a>(r: PlanReader<'a>) -> usize
    ensures { result ≡ length r.entry.plan.now - r.entry.next }
{
    left_from(r.plan, r.next)
}

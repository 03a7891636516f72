// Results made by the sweep into an output: inputs judged in turn, then the output, then its room.
#![tactic(auto)]

ghost use Rattle.std.specs.Prelude.{◌≡◌, [], ◌∷◌, ◌≤◌, ◌<◌, ltb, length};
ghost use Rattle.blocks.specs.Blocks.{layout};
ghost use Rattle.answers.specs.Answers.{outcome};
ghost use Rattle.answers.specs.Says.{judged_says};
ghost use Rattle.blocks.specs.Calls.{stored};
ghost use Rattle.sweeps.specs.Sweeps.{sweep_result};
ghost use Rattle.operations.specs.Calls.{from_two, from_one};
ghost use Rattle.operations.specs.Steps.{result_two, StoreOk, AnyOk, TwoFit, OneFit};

use answers::{Reason, Refusal};
use blocks::Layout;
use sweeps::Plan;

// How the two inputs and the output of an operation are laid out.
#[derive(Clone, Copy)]
pub struct Layouts {
    pub first: Layout,
    pub second: Layout,
    pub out: Layout,
}

// The result of a plan of two inputs into o, which stands at a position; refused where o has no room for it, and then o stays as it is. The
// result has at most bound items.
fn store(
    a: &[u64],
    b: &[u64],
    plan: Plan,
    bound: usize,
    limit: usize,
    position: usize,
    o: &mut [u64],
) -> Result<(), Refusal>
    requires { StoreOk plan limit bound a.now b.now (length o.old) }
    ensures { outcome (judged_says result) (o.new ∷ [])
        ≡ stored position (layout plan.out limit) o.old (result_two plan a.now b.now) }
{
    let due = Layout {
        width: plan.out,
        limit,
    };
    let cap = blocks::room_for(due, o.len());
    if sweeps::fits(a, b, &[0], plan, bound, cap) {
        sweeps::write(a, b, &[0], plan, o);
        return Ok(());
    }
    Err(Reason::Room.at(position))
}

// Whether the result of a plan of two judged inputs has any item.
pub fn any_of_two(a: &[u64], b: &[u64], plan: Plan) -> bool
    requires { AnyOk plan a.now b.now }
    ensures { result ≡ ltb 0 (length (result_two plan a.now b.now)) }
{
    sweeps::any(a, b, &[0], plan)
}

// What a table keeps of any words lent as two blocks, into o.
pub fn from_two(
    a: &[u64],
    b: &[u64],
    table: u8,
    layouts: Layouts,
    weight: usize,
    o: &mut [u64],
) -> Result<(), Refusal>
    requires { TwoFit table layouts weight }
    ensures { outcome (judged_says result) (o.new ∷ []) ≡ from_two layouts.first layouts.second layouts.out
        (λ es fs. sweep_result table layouts.out.width es fs []) a.now b.now o.old }
{
    blocks::judge_two(a, layouts.first, b, layouts.second, 0)?;
    blocks::judge_output(o.len(), 2)?;
    let plan = Plan {
        table,
        a: layouts.first.width,
        b: layouts.second.width,
        c: blocks::SET.width,
        out: layouts.out.width,
    };
    let bound = weight * searches::count_of(a) + searches::count_of(b);
    store(a, b, plan, bound, layouts.out.limit, 2, o)
}

// What a table keeps of any words lent as a block, into o.
pub fn from_one(
    a: &[u64],
    table: u8,
    first: Layout,
    out: Layout,
    o: &mut [u64],
) -> Result<(), Refusal>
    requires { OneFit table first out }
    ensures { outcome (judged_says result) (o.new ∷ []) ≡ from_one first out
        (λ es. sweep_result table out.width es [] []) a.now o.old }
{
    blocks::judge(a, first, 0)?;
    blocks::judge_output(o.len(), 1)?;
    let plan = Plan {
        table,
        a: first.width,
        b: blocks::SET.width,
        c: blocks::SET.width,
        out: out.width,
    };
    let bound = searches::count_of(a) + 1;
    store(a, &[0], plan, bound, out.limit, 1, o)
}

// Bulletins: a released set and a withdrawn set with no number in common. One is applied to a list, and two are folded into one.
// Every call takes any words at all. Its contract names the whole outcome by one definition of specs/Calls.
#![tactic(auto)]

ghost use Rattle.std.specs.Prelude.{◌≡◌, [], ◌∷◌, ◌<◌, length};
ghost use Rattle.answers.specs.Answers.{outcome};
ghost use Rattle.answers.specs.Steps.{FirstOf};
ghost use Rattle.answers.specs.Says.{judged_says};
ghost use Rattle.blocks.specs.Blocks.{SoundBlock, Lent, set_layout, block_of};
ghost use Rattle.blocks.specs.Calls.{room};
ghost use Rattle.searches.specs.Calls.{overlap};
ghost use Rattle.bulletins.specs.Calls.{amended_with, apply_refusals, apply_call, fold_refusals, fold_call};
ghost use Rattle.bulletins.specs.Steps.{Amends, Writes};

use answers::{Reason, Refusal};
use sweeps::Plan;

// A list without what is withdrawn, joined with what is released: the list, the released and the withdrawn set, into a set.
const AMEND: Plan = Plan {
    table: sweeps::WITHOUT_THIRD_JOINED_WITH_SECOND,
    a: blocks::SET.width,
    b: blocks::SET.width,
    c: blocks::SET.width,
    out: blocks::SET.width,
};

// The two sets of a bulletin, as they are lent.
#[derive(Clone, Copy)]
struct Bulletin<'a> {
    released: &'a [u64],
    withdrawn: &'a [u64],
    ghost lent_released: { Lent released.now },
    ghost lent_withdrawn: { Lent withdrawn.now },
}

impl Bulletin<'_> {
    // The refusal of two judged sets that share a number.
    fn judge_overlap(self) -> Result<(), Refusal>
        requires { SoundBlock set_layout self.released.now × SoundBlock set_layout self.withdrawn.now }
        ensures { FirstOf (overlap self.entry.released.now self.entry.withdrawn.now ∷ []) result }
    {
        if searches::share_number(self.released, self.withdrawn) {
            return Err(Reason::Overlap.at(0));
        }
        Ok(())
    }

    // The refusal of an output of so many words at a position, which cannot hold a judged list without what is withdrawn, joined with what is
    // released. Nothing is counted where even the ranges of all three fit.
    fn judge_room(self, list: &[u64], words: usize, position: usize) -> Result<(), Refusal>
        requires { Amends list.now self.released.now self.withdrawn.now words }
        ensures { FirstOf (room position set_layout words (amended_with list.now self.entry.released.now self.entry.withdrawn.now) ∷ []) result }
    {
        let bound = searches::count_of(list)
            + searches::count_of(self.released)
            + searches::count_of(self.withdrawn);
        let cap = blocks::room_for(blocks::SET, words);
        if sweeps::fits(list, self.released, self.withdrawn, AMEND, bound, cap) {
            return Ok(());
        }
        Err(Reason::Room.at(position))
    }

    // A judged list without what is withdrawn, joined with what is released, into an output that has room for it.
    #[tactic(auto, using(crate::proofs::Amending::written, crate::proofs::Amending::write_fits))]
    fn amend(self, list: &[u64], out: &mut [u64])
        requires { Writes list.now self.released.now self.withdrawn.now (length out.old) }
        ensures { out.new ≡ block_of (length out.old) (amended_with list.now self.entry.released.now self.entry.withdrawn.now) }
    {
        sweeps::write(list, self.released, self.withdrawn, AMEND, out);
    }

    // The first refusal of an application to a list, into an output of so many words.
    fn judge_application(self, list: &[u64], words: usize) -> Result<(), Refusal>
        ensures { FirstOf (apply_refusals list.now self.entry.released.now self.entry.withdrawn.now words) result }
    {
        blocks::judge(list, blocks::SET, 0)?;
        blocks::judge_two(self.released, blocks::SET, self.withdrawn, blocks::SET, 1)?;
        blocks::judge_output(words, 3)?;
        self.judge_overlap()?;
        self.judge_room(list, words, 3)
    }

    // The two sets the other way round: so a later bulletin amends what an earlier one withdrew.
    fn turned(self) -> Self
        ensures { (result.released ≡ self.entry.withdrawn) × (result.withdrawn ≡ self.entry.released) }
    {
        Bulletin {
            released: self.withdrawn,
            withdrawn: self.released,
        }
    }

    // The first refusal of a fold of this bulletin and a later one, to outputs at 4 and 5 of so many words: both rooms are known before
    // anything is written.
    fn judge_fold(self, later: Bulletin<'_>, words4: usize, words5: usize) -> Result<(), Refusal>
        ensures { FirstOf (fold_refusals self.entry.released.now self.entry.withdrawn.now
            later.entry.released.now later.entry.withdrawn.now words4 words5) result }
    {
        blocks::judge_two(self.released, blocks::SET, self.withdrawn, blocks::SET, 0)?;
        blocks::judge_two(later.released, blocks::SET, later.withdrawn, blocks::SET, 2)?;
        blocks::judge_output(words4, 4)?;
        blocks::judge_output(words5, 5)?;
        self.judge_overlap()?;
        later.judge_overlap()?;
        later.judge_room(self.released, words4, 4)?;
        later.turned().judge_room(self.withdrawn, words5, 5)
    }
}

// Applies a bulletin to a list: the list without what is withdrawn, joined with what is released, into out.
#[tactic(auto, using(answers::proofs::Turns::refused_by, answers::proofs::Turns::given_by), unfolding(crate::specs::Calls::apply_call))]
pub fn apply(
    list: &[u64],
    released: &[u64],
    withdrawn: &[u64],
    out: &mut [u64],
) -> Result<(), Refusal>
    ensures { outcome (judged_says result) (out.new ∷ []) ≡ apply_call
        list.now released.now withdrawn.now out.old }
{
    let bulletin = Bulletin {
        released,
        withdrawn,
    };
    bulletin.judge_application(list, out.len())?;
    bulletin.amend(list, out);
    Ok(())
}

// Folds an earlier bulletin and a later one into one with the effect of both in turn. Refused, neither output is changed.
#[tactic(auto, using(answers::proofs::Turns::refused_by, answers::proofs::Turns::given_by), unfolding(crate::specs::Calls::fold_call))]
pub fn fold(
    released1: &[u64],
    withdrawn1: &[u64],
    released2: &[u64],
    withdrawn2: &[u64],
    released: &mut [u64],
    withdrawn: &mut [u64],
) -> Result<(), Refusal>
    ensures { outcome (judged_says result) (released.new ∷ withdrawn.new ∷ []) ≡ fold_call
        released1.now withdrawn1.now released2.now withdrawn2.now
        released.old withdrawn.old }
{
    let earlier = Bulletin {
        released: released1,
        withdrawn: withdrawn1,
    };
    let later = Bulletin {
        released: released2,
        withdrawn: withdrawn2,
    };
    earlier.judge_fold(later, released.len(), withdrawn.len())?;
    later.amend(released1, released);
    later.turned().amend(withdrawn1, withdrawn);
    Ok(())
}

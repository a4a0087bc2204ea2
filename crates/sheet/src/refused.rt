// What is common to the refusals of a call and of a block.
ghost use Rattle.std.specs.Prelude.{◌≡◌, ℕ, Result, Ok, Err, Option, Some, None, refl};
ghost use Rattle.protocol.specs.Machine as machine;
ghost use Rattle.sheet.specs.Answer.{meaning, block_meaning, refusal_of, told_of};
ghost use Rattle.sheet.specs.declared.BlockRefusal.TheVariants.{Call, Update};
ghost use Rattle.protocol.specs.declared.Refusal.{Refusal};
ghost use Rattle.sheet.specs.Sheet.{sheet};
ghost use Rattle.sheet.specs.declared.Answer.{Answer};

use crate::BlockRefusal;
use protocol::Refusal;

// Why a call, or a block, is refused.
pub trait Refused: Copy {
    // The machine's answer of what is given.
    ghost meant: { Result Answer Self → machine.Answer sheet };

    // Which refusal it is, and the place of a block's bad update.
    ghost told_of: { Self → Refusal × Option ℕ };

    fn told(self) -> (Refusal, Option<u64>)
        ensures { result ≡ told_of self };

    ghost given: { (a : Answer) → meant (Ok a) ≡ meaning (Ok a) };

    ghost refuses: { (e : Self) → refusal_of (meant (Err e)) ≡ Some (told_of e) };
}

impl Refused for Refusal {
    ghost meant = { meaning };

    ghost told_of = { λ r. (r, None) };

    ghost given = { λ a. refl };

    ghost refuses = { λ r. refl };

    fn told(self) -> (Refusal, Option<u64>) {
        (self, None)
    }
}

impl Refused for BlockRefusal {
    ghost meant = { block_meaning };

    ghost told_of = { told_of };

    ghost given = { λ a. refl };

    ghost refuses = { elim [ Call r ↦ refl | Update r k ↦ refl ] };

    fn told(self) -> (Refusal, Option<u64>) {
        match self {
            BlockRefusal::Call(refusal) => (refusal, None),
            BlockRefusal::Update(refusal, place) => (refusal, Some(place)),
        }
    }
}

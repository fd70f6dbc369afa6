// The rows that say why each plate passes or not, in memory of their own.
ghost use Rattle.std.specs.Prelude.{◌≡◌, MatchResult};
ghost use Rattle.asking.specs.Accounts.{AllRows, NoRows};

use choice::{ExplainRow, RowBook, explain};
use plates::{Joint, Refusal, Supply, Turning, Verdict};
use std::alloc::{AllocError, Global};

// Why there are no rows.
#[derive(Drop)]
pub enum NoAccount {
    Refused(Refusal),
    Memory,
}

impl From<AllocError> for NoAccount {
    ghost use Rattle.asking.specs.declared.accounts.NoAccount.TheVariants.{Memory};

    ghost from_gives = { λ _ why. why ≡ Memory };

    fn from(_e: AllocError) -> Self {
        NoAccount::Memory
    }
}

impl From<Refusal> for NoAccount {
    ghost use Rattle.asking.specs.declared.accounts.NoAccount.TheVariants.{Refused};

    ghost from_gives = { λ refusal why. why ≡ Refused refusal };

    fn from(refusal: Refusal) -> Self {
        NoAccount::Refused(refusal)
    }
}

// What a row holds before it is written.
const UNWRITTEN: ExplainRow = ExplainRow {
    place: 0,
    turning: Turning::Unturned,
    verdict: Verdict::Passes,
};

// Two rows for each plate shown, in place order.
pub fn account<J: Joint, S: Supply>(
    heap: Global,
    joint: &J,
    supply: &S,
) -> Result<Vec<ExplainRow>, NoAccount>
    ensures { MatchResult result (λ v. AllRows (J.standing joint.now) (J.verdict joint.now) (S.places supply.now) (S.shows supply.now) v.items) (NoRows (J.standing joint.now)) }
{
    let room = 2 * (supply.places() as usize);
    let mut memory = Vec::from_elem(heap, UNWRITTEN, room)?;
    let mut book = RowBook::new(memory.as_mut_slice(), 0);
    explain(joint, supply, &mut book)?;
    Ok(Vec::from_slice(heap, book.rows())?)
}

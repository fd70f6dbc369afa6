// One line of a journal: a verb, and the numbers of its call.
ghost use Rattle.std.specs.Prelude.{◌≡◌, ◌+◌, [], ◌∷◌, MatchResult};
ghost use Rattle.std.specs.Option as opt;
ghost use Rattle.texts.specs.Faults.{At};
ghost use Rattle.texts.specs.Lines.{rest, Blank, Numbers};
ghost use Rattle.journals.specs.Says.{Says, numbers_of, verb_of};

use super::ordinals::Ordinal;
use super::verbs::Verb;
use texts::{Fault, Line};
use yard::Call;

// The call that a line says: none where the line is blank.
pub fn call_of(line: &mut Line) -> Result<Option<Call>, Fault>
    ensures { MatchResult result (λ o. opt.MatchOption o (Blank (rest line.old)) (λ c. Says (rest line.old) c)) (λ f. At line.old.number f) }
{
    let Some(word) = line.word() else {
        return Ok(None);
    };
    let verb: Verb = line.meant(word)?;
    let call = numbered(verb, line)?;
    line.end()?;
    Ok(Some(call))
}

// The call of a verb, with its numbers from the line.
fn numbered(verb: Verb, line: &mut Line) -> Result<Call, Fault>
    ensures number { line.new.number ≡ line.old.number }
    ensures call { MatchResult result (λ c. (verb_of c ≡ verb) × Numbers (rest line.old) (numbers_of c) (rest line.new)) (λ f. At line.old.number f) }
{
    match verb {
        Verb::Receive => receipt(line),
        Verb::Draw => drawing(line),
        Verb::Tack => Ok(Call::Tack {
            slip: slip_of(line)?,
        }),
        Verb::Back => Ok(Call::HandBack {
            slip: slip_of(line)?,
        }),
        Verb::Press => Ok(Call::Press {
            slip: slip_of(line)?,
        }),
        Verb::Void => Ok(Call::Void {
            slip: slip_of(line)?,
        }),
        Verb::Tell => Ok(Call::Tell {
            place: line.value()?,
        }),
    }
}

fn receipt(line: &mut Line) -> Result<Call, Fault>
    ensures number { line.new.number ≡ line.old.number }
    ensures call { MatchResult result (λ c. (verb_of c ≡ Verb.Receive) × Numbers (rest line.old) (numbers_of c) (rest line.new)) (λ f. At line.old.number f) }
{
    let place = line.value()?;
    let pairs = line.value()?;
    Ok(Call::Receive { place, pairs })
}

fn drawing(line: &mut Line) -> Result<Call, Fault>
    ensures number { line.new.number ≡ line.old.number }
    ensures call { MatchResult result (λ c. (verb_of c ≡ Verb.Draw) × Numbers (rest line.old) (numbers_of c) (rest line.new)) (λ f. At line.old.number f) }
{
    let sheet: Ordinal = line.value()?;
    let number = line.value()?;
    Ok(Call::Draw {
        joint: sheet.index,
        number,
    })
}

// The hook of the slip that is counted from 1.
fn slip_of(line: &mut Line) -> Result<usize, Fault>
    ensures number { line.new.number ≡ line.old.number }
    ensures hook { MatchResult result (λ i. Numbers (rest line.old) ((i + 1) ∷ []) (rest line.new)) (λ f. At line.old.number f) }
{
    let slip: Ordinal = line.value()?;
    Ok(slip.index)
}

//! Parts of a line that are no plain numbers, and the ranges of their numbers. The readers of all kinds of lines call
//! these.
ghost use Rattle.std.specs.Prelude.{◌≡◌, ◌≤◌};
ghost use Rattle.mapf_fields.specs.Numbers.{Gives, below};
ghost use Rattle.mapf_lemma_texts.specs.LineParts.{read_star, read_amount, judge_amount, read_list_number};
ghost use Rattle.mapf_lemma_texts.specs.LineParts.{judge_list_number};
ghost use Rattle.mapf_lemma_texts.specs.Ranges.{greatest_label};

use mapf_fields::{LineFault, last, strip, within};
use mapf_lemmas::Amount;

/// An amount as it was read: its units, or infinitely many for `inf`.
#[derive(Clone, Copy)]
pub enum AmountWord {
    Units(Option<u64>),
    Infinite,
}

/// Reads an amount after its blank, with nothing after it.
#[tactic(auto, unfolding(crate::specs::LineParts::read_amount))]
#[inline(always)]
pub fn amount_word(rest: &[u8]) -> Result<AmountWord, LineFault>
    ensures { result ≡ read_amount rest.now }
{
    if rest == b" inf".as_slice() {
        return Ok(AmountWord::Infinite);
    }
    Ok(AmountWord::Units(last(b' ', rest)?))
}

/// Returns the amount that was read, if it is infinite or has 1 to `most` units.
#[inline(always)]
pub fn amount_to(most: u64, word: &AmountWord) -> Result<Amount, LineFault>
    requires { most ≤ greatest_label }
    ensures { result ≡ judge_amount most word.now }
{
    match *word {
        AmountWord::Infinite => Ok(Amount::infinite()),
        AmountWord::Units(units) => Ok(Amount::of(within(1, most, units)?)),
    }
}

/// Reads the number of a price list after its blank, or `-` for none, with nothing after it.
#[tactic(auto, unfolding(crate::specs::LineParts::read_list_number))]
pub fn list_word(rest: &[u8]) -> Result<Option<Option<u64>>, LineFault>
    ensures { result ≡ read_list_number rest.now }
{
    if rest == b" -".as_slice() {
        return Ok(None);
    }
    Ok(Some(last(b' ', rest)?))
}

fn below_count(bound: u64, number: Option<u64>) -> Result<u64, LineFault>
    ensures { result ≡ below bound number }
{
    match number {
        Some(n) if n < bound => Ok(n),
        _ => Err(LineFault::Range),
    }
}

/// Returns the number of a price list that was read, if it is below the number of lists.
pub fn list_number(lists: u64, word: Option<Option<u64>>) -> Result<Option<u64>, LineFault>
    ensures { result ≡ judge_list_number lists word }
{
    match word {
        Some(number) => Ok(Some(below_count(lists, number)?)),
        None => Ok(None),
    }
}

/// Reads the star, after its blank, of an agent that has arrived. Returns what follows it.
#[tactic(auto, unfolding(crate::specs::LineParts::read_star))]
pub fn star(bytes: &[u8]) -> Result<&[u8], LineFault>
    ensures { Gives (λ r. r.now) result (read_star bytes.entry.now) }
{
    match strip(bytes, b" *") {
        Some(rest) => Ok(rest),
        None => Err(LineFault::Shape),
    }
}

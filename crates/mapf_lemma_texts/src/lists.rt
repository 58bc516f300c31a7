//! How the lists of a part are read, value after value. The reader of parts calls it for prices, constraints, entries,
//! joint cells, agents and uses.
ghost use Rattle.mapf_certificate.specs.Bounded.{AreInOrder, MayFollow};
ghost use Rattle.mapf_certificate.specs.Buffered.{spare};
ghost use Rattle.mapf_certificate.specs.Window.{Window, BeginsWith, Fails};
ghost use Rattle.mapf_lemmas.specs.Groups.{Group};
ghost use Rattle.mapf_lemma_texts.specs.Listing.{IsListed, BeginsWithList, value_text, values_text, InAnyOrder};
ghost use Rattle.mapf_lemma_texts.specs.Parts.{IsGroupInRange, group_text, groups_text};
ghost use Rattle.std.specs.Prelude.{◌≡◌, ◌≤◌, ◌↔◌, List, All, AllPairs, IsTrue, IfOk, IfErr, OnOk, false};

use crate::line::LemmaLine;
use crate::lines::LemmaLines;
use crate::listed::Listed;
use crate::sizes::{LinePlace, LineSizes};
use mapf_certificate::LinesFault;
use mapf_lemmas::Group;
use mapf_model::Source;
use std::alloc::Global;

/// For how many values of a list memory is requested at once. If a text announces more than it has, this is little
/// memory.
const AT_ONCE: u64 = 64;

/// What the values of a list are judged by: the sizes of the text, and the agents of the part.
#[derive(Clone, Copy)]
pub struct ListBounds<'a> {
    pub sizes: LineSizes,
    pub agents: &'a [u32],
}

// Returns whether the value may follow these.
fn follows<T: Listed>(before: &[T], value: &T) -> bool
    requires { AllPairs T.precedes before.now }
    ensures { IsTrue result ↔ All (λ b. T.precedes b value.now) before.now }
{
    match before.last() {
        Some(last) => last.is_before(value),
        None => true,
    }
}

// Reads the value that follows these.
fn next_value<T: Listed, S: Source>(
    lines: &mut LemmaLines,
    source: &mut S,
    bounds: &ListBounds<'_>,
    before: &[T],
) -> Result<T, LinesFault>
    requires works { S.has_failed source.old ≡ false }
    requires rising { AllPairs T.precedes before.now }
    ensures works { OnOk result (S.has_failed source.new ≡ false) }
    ensures spare { spare lines.new.buffer ≤ spare lines.old.buffer }
    ensures next { IfOk result (MayFollow T (IsListed bounds.now.sizes T.line_of (T.fits bounds.now.agents.now))
        T.precedes before.now) }
    ensures taken { IfOk result (λ value. Window (S.remaining source.old) (S.remaining source.new)
        lines.old.buffer lines.new.buffer (value_text bounds.now.sizes.width T.line_of value)) }
    ensures fails { IfErr result (Fails (S.remaining source.old) (S.remaining source.new) (S.has_failed source.new)
        lines.old.buffer (BeginsWith T
        (MayFollow T (IsListed bounds.now.sizes T.line_of (T.fits bounds.now.agents.now)) T.precedes before.now)
        (value_text bounds.now.sizes.width T.line_of))) }
{
    let line = lines.next(source, &LinePlace::Later(bounds.sizes))?;
    let Some(value) = T::of_line(&line) else {
        return Err(lines.misfit());
    };
    if !value.is_fit(bounds.agents) {
        return Err(lines.misfit());
    }
    if !follows(before, &value) {
        return Err(lines.misfit());
    }
    Ok(value)
}

/// Reads so many values, which rise.
pub fn list<T: Listed, S: Source>(
    alloc: Global,
    lines: &mut LemmaLines,
    source: &mut S,
    bounds: &ListBounds<'_>,
    count: u64,
) -> Result<Vec<T>, LinesFault>
    requires works { S.has_failed source.old ≡ false }
    ensures works { OnOk result (S.has_failed source.new ≡ false) }
    ensures spare { spare lines.new.buffer ≤ spare lines.old.buffer }
    ensures values { IfOk result (λ values. AreInOrder T
        (IsListed bounds.now.sizes T.line_of (T.fits bounds.now.agents.now)) T.precedes count values.items) }
    ensures taken { IfOk result (λ values. Window (S.remaining source.old) (S.remaining source.new)
        lines.old.buffer lines.new.buffer (values_text bounds.now.sizes.width T.line_of values.items)) }
    ensures fails { IfErr result (Fails (S.remaining source.old) (S.remaining source.new) (S.has_failed source.new)
        lines.old.buffer (BeginsWithList T bounds.now.sizes T.line_of (T.fits bounds.now.agents.now) T.precedes
        count)) }
{
    let Ok(mut values) = Vec::with_capacity(alloc, count.min(AT_ONCE) as usize) else {
        return Err(LinesFault::Memory);
    };
    for _taken in 0..count {
        let value = next_value(lines, source, bounds, &values)?;
        if values.push(value).is_err() {
            return Err(LinesFault::Memory);
        }
    }
    Ok(values)
}

// Reads a group.
fn next_group<S: Source>(
    alloc: Global,
    lines: &mut LemmaLines,
    source: &mut S,
    sizes: &LineSizes,
) -> Result<Group, LinesFault>
    requires works { S.has_failed source.old ≡ false }
    ensures works { OnOk result (S.has_failed source.new ≡ false) }
    ensures spare { spare lines.new.buffer ≤ spare lines.old.buffer }
    ensures group { IfOk result (IsGroupInRange sizes.now) }
    ensures taken { IfOk result (λ group. Window (S.remaining source.old) (S.remaining source.new)
        lines.old.buffer lines.new.buffer (group_text sizes.now.width group)) }
    ensures fails { IfErr result (Fails (S.remaining source.old) (S.remaining source.new) (S.has_failed source.new)
        lines.old.buffer (BeginsWith Group (IsGroupInRange sizes.now) (group_text sizes.now.width))) }
{
    let line = lines.next(source, &LinePlace::Later(*sizes))?;
    let LemmaLine::Group { uses, divisor } = line else {
        return Err(lines.misfit());
    };
    let bounds = ListBounds {
        sizes: *sizes,
        agents: &[],
    };
    let uses = list(alloc, lines, source, &bounds, uses as u64)?;
    Ok(Group { divisor, uses })
}

/// Reads so many groups.
pub fn groups<S: Source>(
    alloc: Global,
    lines: &mut LemmaLines,
    source: &mut S,
    sizes: &LineSizes,
    count: u64,
) -> Result<Vec<Group>, LinesFault>
    requires works { S.has_failed source.old ≡ false }
    ensures works { OnOk result (S.has_failed source.new ≡ false) }
    ensures spare { spare lines.new.buffer ≤ spare lines.old.buffer }
    ensures values { IfOk result (λ groups. AreInOrder Group (IsGroupInRange sizes.now) InAnyOrder count
        groups.items) }
    ensures taken { IfOk result (λ groups. Window (S.remaining source.old) (S.remaining source.new)
        lines.old.buffer lines.new.buffer (groups_text sizes.now.width groups.items)) }
    ensures fails { IfErr result (Fails (S.remaining source.old) (S.remaining source.new) (S.has_failed source.new)
        lines.old.buffer (BeginsWith (List Group) (AreInOrder Group (IsGroupInRange sizes.now) InAnyOrder count)
        (groups_text sizes.now.width))) }
{
    let Ok(mut groups) = Vec::with_capacity(alloc, count.min(AT_ONCE) as usize) else {
        return Err(LinesFault::Memory);
    };
    for _taken in 0..count {
        let group = next_group(alloc, lines, source, sizes)?;
        if groups.push(group).is_err() {
            return Err(LinesFault::Memory);
        }
    }
    Ok(groups)
}

//! How the lines of a part after its first one are read. The reader of parts calls it once it has the first line.
ghost use Rattle.mapf_certificate.specs.Buffered.{spare};
ghost use Rattle.mapf_certificate.specs.Window.{Fails};
ghost use Rattle.mapf_lemmas.specs.Groups.{LeafUses};
ghost use Rattle.mapf_lemmas.specs.Prices.{PriceList};
ghost use Rattle.mapf_lemma_texts.specs.Lines.{IsLaterLine};
ghost use Rattle.mapf_lemma_texts.specs.PartReading.{CompletesPart, FollowsFirst};
ghost use Rattle.mapf_lemma_texts.specs.PartValues.{OneValue, TwoValue, NeverValue, CasesValue};
ghost use Rattle.mapf_lemma_texts.specs.declared.part.Part.{Part};
ghost use Rattle.mapf_lemma_texts.specs.declared.part.Part.TheVariants as parts;
ghost use Rattle.std.specs.Prelude.{◌≡◌, ◌≤◌, IfOk, IfErr, OnOk, false};

use crate::line::LemmaLine;
use crate::lines::LemmaLines;
use crate::lists::{ListBounds, groups, list};
use crate::part::{CasesHead, NeverLemma, OneLemma, Part, TwoLemma};
use crate::sizes::LineSizes;
use mapf_certificate::LinesFault;
use mapf_lemmas::{LeafUses, PriceList};
use mapf_model::Source;
use std::alloc::Global;

// Reads a price list that begins with this line.
fn price_list<S: Source>(
    alloc: Global,
    lines: &mut LemmaLines,
    source: &mut S,
    sizes: &LineSizes,
    line: &LemmaLine,
) -> Result<PriceList, LinesFault>
    requires works { S.has_failed source.old ≡ false }
    requires line { IsLaterLine sizes.now line.now }
    ensures works { OnOk result (S.has_failed source.new ≡ false) }
    ensures spare { spare lines.new.buffer ≤ spare lines.old.buffer }
    ensures completes { IfOk result (λ value. CompletesPart sizes.now (S.remaining source.old) (S.remaining source.new)
        lines.old.buffer lines.new.buffer line.now (parts.List value)) }
    ensures fails { IfErr result (Fails (S.remaining source.old) (S.remaining source.new) (S.has_failed source.new)
        lines.old.buffer (FollowsFirst PriceList parts.List sizes.now line.now)) }
{
    let LemmaLine::List { unit, prices } = *line else {
        return Err(lines.misfit());
    };
    let bounds = ListBounds {
        sizes: *sizes,
        agents: &[],
    };
    let prices = list(alloc, lines, source, &bounds, prices)?;
    Ok(PriceList { unit, prices })
}

// Reads a lemma of one agent by labels that begins with this line.
fn one_lemma<S: Source>(
    alloc: Global,
    lines: &mut LemmaLines,
    source: &mut S,
    sizes: &LineSizes,
    line: &LemmaLine,
) -> Result<OneLemma, LinesFault>
    requires works { S.has_failed source.old ≡ false }
    requires line { IsLaterLine sizes.now line.now }
    ensures works { OnOk result (S.has_failed source.new ≡ false) }
    ensures spare { spare lines.new.buffer ≤ spare lines.old.buffer }
    ensures completes { IfOk result (λ value. CompletesPart sizes.now (S.remaining source.old) (S.remaining source.new)
        lines.old.buffer lines.new.buffer line.now (parts.One value)) }
    ensures fails { IfErr result (Fails (S.remaining source.old) (S.remaining source.new) (S.has_failed source.new)
        lines.old.buffer (FollowsFirst OneValue parts.One sizes.now line.now)) }
{
    let LemmaLine::One {
        agent,
        constraints,
        entries,
        list_number,
    } = *line
    else {
        return Err(lines.misfit());
    };
    let bounds = ListBounds {
        sizes: *sizes,
        agents: &[agent],
    };
    let constraints = list(alloc, lines, source, &bounds, constraints as u64)?;
    let entries = list(alloc, lines, source, &bounds, entries)?;
    Ok(OneLemma {
        agent,
        constraints,
        list_number,
        entries,
    })
}

// Reads a lemma of two agents by labels that begins with this line.
fn two_lemma<S: Source>(
    alloc: Global,
    lines: &mut LemmaLines,
    source: &mut S,
    sizes: &LineSizes,
    line: &LemmaLine,
) -> Result<TwoLemma, LinesFault>
    requires works { S.has_failed source.old ≡ false }
    requires line { IsLaterLine sizes.now line.now }
    ensures works { OnOk result (S.has_failed source.new ≡ false) }
    ensures spare { spare lines.new.buffer ≤ spare lines.old.buffer }
    ensures completes { IfOk result (λ value. CompletesPart sizes.now (S.remaining source.old) (S.remaining source.new)
        lines.old.buffer lines.new.buffer line.now (parts.Two value)) }
    ensures fails { IfErr result (Fails (S.remaining source.old) (S.remaining source.new) (S.has_failed source.new)
        lines.old.buffer (FollowsFirst TwoValue parts.Two sizes.now line.now)) }
{
    let LemmaLine::Two {
        first: i,
        second: j,
        constraints,
        first_entries,
        second_entries,
        joint_entries,
        list_number,
    } = *line
    else {
        return Err(lines.misfit());
    };
    let bounds = ListBounds {
        sizes: *sizes,
        agents: &[i, j],
    };
    let constraints = list(alloc, lines, source, &bounds, constraints as u64)?;
    let first = list(alloc, lines, source, &bounds, first_entries)?;
    let second = list(alloc, lines, source, &bounds, second_entries)?;
    let joint = list(alloc, lines, source, &bounds, joint_entries)?;
    Ok(TwoLemma {
        i,
        j,
        constraints,
        list_number,
        first,
        second,
        joint,
    })
}

// Reads a lemma of two agents by joint cells that begins with this line.
fn never_lemma<S: Source>(
    alloc: Global,
    lines: &mut LemmaLines,
    source: &mut S,
    sizes: &LineSizes,
    line: &LemmaLine,
) -> Result<NeverLemma, LinesFault>
    requires works { S.has_failed source.old ≡ false }
    requires line { IsLaterLine sizes.now line.now }
    ensures works { OnOk result (S.has_failed source.new ≡ false) }
    ensures spare { spare lines.new.buffer ≤ spare lines.old.buffer }
    ensures completes { IfOk result (λ value. CompletesPart sizes.now (S.remaining source.old) (S.remaining source.new)
        lines.old.buffer lines.new.buffer line.now (parts.Never value)) }
    ensures fails { IfErr result (Fails (S.remaining source.old) (S.remaining source.new) (S.has_failed source.new)
        lines.old.buffer (FollowsFirst NeverValue parts.Never sizes.now line.now)) }
{
    let LemmaLine::Never {
        first: i,
        second: j,
        cells,
    } = *line
    else {
        return Err(lines.misfit());
    };
    let bounds = ListBounds {
        sizes: *sizes,
        agents: &[],
    };
    let cells = list(alloc, lines, source, &bounds, cells)?;
    Ok(NeverLemma { i, j, cells })
}

// Reads a lemma by cases, without its tree that begins with this line.
fn cases_head<S: Source>(
    alloc: Global,
    lines: &mut LemmaLines,
    source: &mut S,
    sizes: &LineSizes,
    line: &LemmaLine,
) -> Result<CasesHead, LinesFault>
    requires works { S.has_failed source.old ≡ false }
    requires line { IsLaterLine sizes.now line.now }
    ensures works { OnOk result (S.has_failed source.new ≡ false) }
    ensures spare { spare lines.new.buffer ≤ spare lines.old.buffer }
    ensures completes { IfOk result (λ value. CompletesPart sizes.now (S.remaining source.old) (S.remaining source.new)
        lines.old.buffer lines.new.buffer line.now (parts.Cases value)) }
    ensures fails { IfErr result (Fails (S.remaining source.old) (S.remaining source.new) (S.has_failed source.new)
        lines.old.buffer (FollowsFirst CasesValue parts.Cases sizes.now line.now)) }
{
    let LemmaLine::Cases {
        agents,
        constraints,
        bound,
    } = *line
    else {
        return Err(lines.misfit());
    };
    let bounds = ListBounds {
        sizes: *sizes,
        agents: &[],
    };
    let agents: Vec<u32> = list(alloc, lines, source, &bounds, agents as u64)?;
    let bounds = ListBounds {
        sizes: *sizes,
        agents: &agents,
    };
    let constraints = list(alloc, lines, source, &bounds, constraints as u64)?;
    Ok(CasesHead {
        agents,
        constraints,
        bound,
    })
}

// Reads a leaf that begins with this line.
fn leaf_uses<S: Source>(
    alloc: Global,
    lines: &mut LemmaLines,
    source: &mut S,
    sizes: &LineSizes,
    line: &LemmaLine,
) -> Result<LeafUses, LinesFault>
    requires works { S.has_failed source.old ≡ false }
    requires line { IsLaterLine sizes.now line.now }
    ensures works { OnOk result (S.has_failed source.new ≡ false) }
    ensures spare { spare lines.new.buffer ≤ spare lines.old.buffer }
    ensures completes { IfOk result (λ value. CompletesPart sizes.now (S.remaining source.old) (S.remaining source.new)
        lines.old.buffer lines.new.buffer line.now (parts.Leaf value)) }
    ensures fails { IfErr result (Fails (S.remaining source.old) (S.remaining source.new) (S.has_failed source.new)
        lines.old.buffer (FollowsFirst LeafUses parts.Leaf sizes.now line.now)) }
{
    let LemmaLine::Leaf {
        uses,
        groups: count,
        list_number,
    } = *line
    else {
        return Err(lines.misfit());
    };
    let bounds = ListBounds {
        sizes: *sizes,
        agents: &[],
    };
    let singles = list(alloc, lines, source, &bounds, uses as u64)?;
    let groups = groups(alloc, lines, source, sizes, count as u64)?;
    Ok(LeafUses {
        list_number,
        singles,
        groups,
    })
}

/// Reads the part that begins with this line.
pub fn part_of<S: Source>(
    alloc: Global,
    lines: &mut LemmaLines,
    source: &mut S,
    sizes: &LineSizes,
    line: &LemmaLine,
) -> Result<Part, LinesFault>
    requires works { S.has_failed source.old ≡ false }
    requires line { IsLaterLine sizes.now line.now }
    ensures works { OnOk result (S.has_failed source.new ≡ false) }
    ensures spare { spare lines.new.buffer ≤ spare lines.old.buffer }
    ensures completes { IfOk result (CompletesPart sizes.now (S.remaining source.old) (S.remaining source.new)
        lines.old.buffer lines.new.buffer line.now) }
    ensures fails { IfErr result (Fails (S.remaining source.old) (S.remaining source.new) (S.has_failed source.new)
        lines.old.buffer (FollowsFirst Part (λ part. part) sizes.now line.now)) }
{
    match *line {
        LemmaLine::Prices(count) => Ok(Part::Prices(count)),
        LemmaLine::Lemmas(count) => Ok(Part::Lemmas(count)),
        LemmaLine::List { .. } => Ok(Part::List(price_list(alloc, lines, source, sizes, line)?)),
        LemmaLine::One { .. } => Ok(Part::One(one_lemma(alloc, lines, source, sizes, line)?)),
        LemmaLine::Two { .. } => Ok(Part::Two(two_lemma(alloc, lines, source, sizes, line)?)),
        LemmaLine::Never { .. } => Ok(Part::Never(never_lemma(alloc, lines, source, sizes, line)?)),
        LemmaLine::Cases { .. } => Ok(Part::Cases(cases_head(alloc, lines, source, sizes, line)?)),
        LemmaLine::Leaf { .. } => Ok(Part::Leaf(leaf_uses(alloc, lines, source, sizes, line)?)),
        LemmaLine::Vertex { i, j, cell, tick } => Ok(Part::Vertex { i, j, cell, tick }),
        LemmaLine::Swap {
            i,
            j,
            from,
            to,
            tick,
        } => Ok(Part::Swap {
            i,
            j,
            from,
            to,
            tick,
        }),
        LemmaLine::Cost { i, ticks } => Ok(Part::Cost { i, ticks }),
        LemmaLine::Costs {
            i,
            ticks,
            j,
            least,
            lemma,
        } => Ok(Part::Costs {
            i,
            ticks,
            j,
            least,
            lemma,
        }),
        LemmaLine::Clash { i, j } => Ok(Part::Clash { i, j }),
        _ => Err(lines.misfit()),
    }
}

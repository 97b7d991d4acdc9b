ghost use Rattle.std.specs.Prelude.{◌≡◌, ◌++◌, OnOk, IsUtf8};
ghost use Rattle.std.specs.Fmt.{decimal};
ghost use Rattle.alw_model.specs.declared.ends.Ended.TheVariants.{Trapped};
ghost use Rattle.alw_report.specs.Reports.{title, sizes_line, params_word, params_line, ended_text, ended_line, events_line, requests_text, replies_text, hops_line, head_text, counts_text, summary_text};

use crate::values::Report;
use alw_image::{Params, Sizes};
use alw_model::{Counts, Ended, TrapAt};
use alw_num::NoMemory;
use alw_text::{Spell, Text, put_number};

/// The seven lines of a summary.
#[tactic(auto, unfolding(crate::specs::Reports::summary_text))]
pub fn put_summary(text: &mut Text, report: &Report) -> Result<(), NoMemory>
    ensures { OnOk result (text.new ≡ text.old ++ summary_text report.now) }
{
    put_head(text, report)?;
    put_counts(text, &report.counts)?;
    Ok(())
}

// The first four lines.
#[tactic(auto, unfolding(crate::specs::Reports::head_text))]
fn put_head(text: &mut Text, report: &Report) -> Result<(), NoMemory>
    ensures { OnOk result (text.new ≡ text.old ++ head_text report.now) }
{
    put_title(text)?;
    put_sizes(text, report.sizes)?;
    put_params(text, &report.params)?;
    put_ended_line(text, &report.ended)?;
    Ok(())
}

// The counts, in three lines.
#[tactic(auto, unfolding(crate::specs::Reports::counts_text))]
fn put_counts(text: &mut Text, counts: &Counts) -> Result<(), NoMemory>
    ensures { OnOk result (text.new ≡ text.old ++ counts_text counts.now) }
{
    put_events(text, counts)?;
    put_requests(text, counts)?;
    put_replies(text, counts)?;
    put_hops(text, counts)?;
    Ok(())
}

#[tactic(auto, unfolding(crate::specs::Reports::title))]
fn put_title(text: &mut Text) -> Result<(), NoMemory>
    ensures { OnOk result (text.new ≡ text.old ++ title) }
{
    text.put(b"ALEWIFE REPORT 1\n")
}

/// Columns and rows of the mesh, and how many contexts and lines each node has.
#[tactic(auto, unfolding(crate::specs::Reports::sizes_line))]
pub fn put_sizes(text: &mut Text, sizes: Sizes) -> Result<(), NoMemory>
    ensures { OnOk result (text.new ≡ text.old ++ sizes_line sizes) }
{
    put_number(text, b"mesh ", u64::from(sizes.width))?;
    put_number(text, b" ", u64::from(sizes.height))?;
    put_number(text, b" contexts ", u64::from(sizes.contexts))?;
    put_number(text, b" lines ", u64::from(sizes.per_node))?;
    text.put(b"\n")?;
    Ok(())
}

#[tactic(auto, unfolding(crate::specs::Reports::params_word))]
fn put_params_word(text: &mut Text) -> Result<(), NoMemory>
    ensures { OnOk result (text.new ≡ text.old ++ params_word) }
{
    text.put(b"params pointers ")
}

/// The line of the parameters.
#[tactic(auto, unfolding(crate::specs::Reports::params_line))]
pub fn put_params(text: &mut Text, params: &Params) -> Result<(), NoMemory>
    ensures { OnOk result (text.new ≡ text.old ++ params_line params.now) }
{
    put_params_word(text)?;
    text.put_decimal(u64::from(params.pointers()))?;
    put_number(text, b" sets ", u64::from(params.sets()))?;
    put_number(text, b" limit ", u64::from(params.limit()))?;
    text.put(b"\n")?;
    Ok(())
}

/// The line that says how the run ended.
#[tactic(auto, unfolding(crate::specs::Reports::ended_line))]
pub fn put_ended_line(text: &mut Text, ended: &Ended) -> Result<(), NoMemory>
    ensures { OnOk result (text.new ≡ text.old ++ ended_line ended.now) }
{
    text.put(b"ended ")?;
    put_ended(text, ended)?;
    text.put(b"\n")?;
    Ok(())
}

/// How the run ended, in UTF-8.
#[tactic(auto, using(crate::proofs::Utf8::halted_is_utf8, crate::proofs::Utf8::limit_is_utf8))]
pub fn put_ended(text: &mut Text, ended: &Ended) -> Result<(), NoMemory>
    ensures text { OnOk result (text.new ≡ text.old ++ ended_text ended.now) }
    ensures utf8 { OnOk result (IsUtf8 (ended_text ended.now)) }
{
    match ended {
        Ended::Halted => text.put(b"halted"),
        Ended::Limit(_) => text.put(b"limit"),
        Ended::Trapped(at) => put_trap(text, at),
    }
}

// The first trapping turn.
fn put_trap(text: &mut Text, at: &TrapAt) -> Result<(), NoMemory>
    ensures text { OnOk result (text.new ≡ text.old ++ ended_text (Trapped at.now)) }
    ensures utf8 { OnOk result (IsUtf8 (ended_text (Trapped at.now))) }
{
    put_number(text, b"trapped node ", u64::from(at.node))?;
    put_number(text, b" slot ", u64::from(at.slot))?;
    text.put(b" pc ")?;
    text.put_hex32(at.pc)?;
    text.put(b" tt ")?;
    text.put_hex8(at.tt)?;
    Ok(())
}

#[tactic(auto, unfolding(crate::specs::Reports::events_line))]
fn put_events(text: &mut Text, counts: &Counts) -> Result<(), NoMemory>
    ensures { OnOk result (text.new ≡ text.old ++ events_line counts.now) }
{
    put_number(text, b"entries ", counts.entries)?;
    put_number(text, b" turns ", counts.turns)?;
    put_number(text, b" misses ", counts.misses)?;
    put_number(text, b" evicts ", counts.evicts)?;
    text.put(b"\n")?;
    Ok(())
}

// Messages to memory.
#[tactic(auto, unfolding(crate::specs::Reports::requests_text))]
fn put_requests(text: &mut Text, counts: &Counts) -> Result<(), NoMemory>
    ensures { OnOk result (text.new ≡ text.old ++ requests_text counts.now) }
{
    put_number(text, b"messages RREQ ", counts.rreq)?;
    put_number(text, b" WREQ ", counts.wreq)?;
    put_number(text, b" REPM ", counts.repm)?;
    put_number(text, b" UPDATE ", counts.update)?;
    put_number(text, b" ACKC ", counts.ackc)?;
    Ok(())
}

// Messages to a cache.
#[tactic(auto, unfolding(crate::specs::Reports::replies_text))]
fn put_replies(text: &mut Text, counts: &Counts) -> Result<(), NoMemory>
    ensures { OnOk result (text.new ≡ text.old ++ replies_text counts.now) }
{
    put_number(text, b" RDATA ", counts.rdata)?;
    put_number(text, b" WDATA ", counts.wdata)?;
    put_number(text, b" INV ", counts.inv)?;
    put_number(text, b" BUSY ", counts.busy)?;
    text.put(b"\n")?;
    Ok(())
}

#[tactic(auto, unfolding(crate::specs::Reports::hops_line))]
fn put_hops(text: &mut Text, counts: &Counts) -> Result<(), NoMemory>
    ensures { OnOk result (text.new ≡ text.old ++ hops_line counts.now) }
{
    put_number(text, b"hops ", counts.hops)?;
    put_number(text, b" handlers ", counts.handlers)?;
    put_number(text, b" spills ", counts.spills)?;
    text.put(b"\n")?;
    Ok(())
}

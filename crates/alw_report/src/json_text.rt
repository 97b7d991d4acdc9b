ghost use Rattle.std.specs.Prelude.{◌≡◌, IfOk};
ghost use Rattle.alw_report.specs.Json.{counts_data, entry_data, ended_data, object_text, json_text};

use crate::entries::{meta_name, state_name};
use crate::head::put_ended;
use crate::values::{DirectoryLine, Report};
use alw_json::{Nodes, ParamsObject, ToJson, Tokens, put, str_of, text_of};
use alw_model::Counts;
use alw_num::NoMemory;
use alw_text::Text;
use std::alloc::Global;

/// The text of a report as JSON (RFC 8259): one object without blanks, the keys of each object in
/// the order of their bytes, and LF.
#[tactic(auto, unfolding(crate::specs::Json::json_text))]
pub fn json(alloc: Global, told: &Report) -> Result<Text, NoMemory>
    ensures { IfOk result (λ text. text ≡ json_text told.now) }
{
    let mut ended = Text::empty(alloc);
    put_ended(&mut ended, &told.ended)?;
    let mut text = spelled(alloc, told, str_of(&ended))?;
    text.push(b'\n')?;
    Ok(text)
}

// The object of a report, whose end has these words.
#[tactic(auto, unfolding(crate::specs::Json::object_text))]
fn spelled(alloc: Global, told: &Report, ended: &str) -> Result<Text, NoMemory>
    ensures { IfOk result (λ text. text ≡ object_text told.now ended.now) }
{
    text_of(alloc, &ReportObject { told, ended })
}

// A report, with the words of its end.
#[derive(Clone, Copy)]
struct ReportObject<'a> {
    told: &'a Report,
    ended: &'a str,
}

impl ToJson for ReportObject<'_> {
    ghost value_of = { λ o. ended_data o.told.now o.ended.now };

    fn write(&self, out: &mut Tokens) -> Result<(), NoMemory> {
        let told = self.told;
        out.begin_object()?;
        put(out, "contexts", &told.sizes.contexts)?;
        put(out, "counts", &CountsObject(&told.counts))?;
        put(out, "directory", &told.directory.members())?;
        put(out, "ended", &self.ended)?;
        put(out, "lines", &told.sizes.per_node)?;
        put(out, "memory", &told.memory.members())?;
        put(out, "mesh", &(told.sizes.width, told.sizes.height))?;
        put(out, "params", &ParamsObject(&told.params))?;
        put(out, "prints", &told.prints.members())?;
        put(out, "runs", &told.runs.members())?;
        out.end_object()
    }
}

// The counts of a run.
#[derive(Clone, Copy)]
struct CountsObject<'a>(&'a Counts);

impl ToJson for CountsObject<'_> {
    ghost value_of = { λ o. counts_data o.0.now };

    fn write(&self, out: &mut Tokens) -> Result<(), NoMemory> {
        let counts = self.0;
        out.begin_object()?;
        put(out, "ACKC", &counts.ackc)?;
        put(out, "BUSY", &counts.busy)?;
        put(out, "INV", &counts.inv)?;
        put(out, "RDATA", &counts.rdata)?;
        put(out, "REPM", &counts.repm)?;
        put(out, "RREQ", &counts.rreq)?;
        put(out, "UPDATE", &counts.update)?;
        put(out, "WDATA", &counts.wdata)?;
        put(out, "WREQ", &counts.wreq)?;
        put(out, "entries", &counts.entries)?;
        put(out, "evicts", &counts.evicts)?;
        put(out, "handlers", &counts.handlers)?;
        put(out, "hops", &counts.hops)?;
        put(out, "misses", &counts.misses)?;
        put(out, "spills", &counts.spills)?;
        put(out, "turns", &counts.turns)?;
        out.end_object()
    }
}

impl ToJson for DirectoryLine {
    ghost value_of = { entry_data };

    fn write(&self, out: &mut Tokens) -> Result<(), NoMemory> {
        out.begin_object()?;
        put(out, "acks", &self.acks)?;
        put(out, "hw", &Nodes(self.hardware))?;
        put(out, "line", &self.line.0)?;
        put(out, "meta", &meta_name(self.meta))?;
        put(out, "state", &state_name(self.state))?;
        put(out, "sw", &Nodes(self.software))?;
        out.end_object()
    }
}

ghost use Rattle.std.specs.Prelude.{◌≡◌, ◌++◌, IfOk};
ghost use Rattle.alw_report.specs.Reports.{summary_text, report_text};

use crate::head::put_summary;
use crate::lists::put_lists;
use crate::values::Report;
use alw_num::NoMemory;
use alw_text::Text;
use std::alloc::Global;

/// The text of a summary: the first seven lines of the report.
pub fn summary(alloc: Global, told: &Report) -> Result<Text, NoMemory>
    ensures { IfOk result (λ text. text ≡ summary_text told.now) }
{
    let mut summary = Text::empty(alloc);
    put_summary(&mut summary, told)?;
    Ok(summary)
}

/// The text of a report.
#[tactic(auto, unfolding(crate::specs::Reports::report_text))]
pub fn report(alloc: Global, told: &Report) -> Result<Text, NoMemory>
    ensures { IfOk result (λ text. text ≡ report_text told.now) }
{
    let mut text = Text::empty(alloc);
    put_summary(&mut text, told)?;
    put_lists(&mut text, told)?;
    text.put(b"end\n")?;
    Ok(text)
}

ghost use Rattle.std.specs.Prelude.{◌≡◌};
ghost use Rattle.alw_msg.specs.declared.events.Event.TheVariants.{Instr};
ghost use Rattle.alw_model.specs.declared.ends.Ended.TheVariants.{Halted, Trapped, Limit};
ghost use Rattle.alw_model.specs.Rows.{defaults};
ghost use Rattle.alw_model.specs.Rows.OneNode.{trap_image, trap_journal, loop_image, limit_3, loop_journal};
ghost use Rattle.alw_model.specs.Rows.TwoNodes.{writers_image, writers_journal};
ghost use Rattle.alw_model.specs.Rows.Recorded.{recorded_image, recorded_parameters, recorded_journal};
ghost use Rattle.alw_report.specs.Reports.{report_of};
ghost use Rattle.alw_report.specs.Worked.{writers_report, trap_report, limit_report, recorded_report};
ghost use Rattle.alw_report.specs.Json.{json_of};
ghost use Rattle.alw_report.specs.WorkedJson.{writers_json, trap_json, limit_json, recorded_json};

/// The reports of worked runs are those that an independent program writes: of two nodes that share
/// a line, of a trap, of a limit, and of 260 entries with entries in both sets of pointers.
#[tactic(auto, unfolding(alw_model::specs::Rows::closed_runs, alw_model::specs::Rows::OneNode::one_node_runs, alw_model::specs::Rows::TwoNodes::two_node_runs, alw_model::specs::Rows::Recorded::recorded_run_words, crate::specs::Worked::closed_reports))]
pub fn worked_reports()
    ensures halted { report_of writers_image defaults writers_journal Halted ≡ writers_report }
    ensures trapped { report_of trap_image defaults trap_journal (Trapped (record { entry = 1; node = 0; slot = 0; pc = 4; tt = 0x07 })) ≡ trap_report }
    ensures limit { report_of loop_image limit_3 loop_journal (Limit (Instr (record { 0 = 0 }))) ≡ limit_report }
    ensures recorded { report_of recorded_image recorded_parameters recorded_journal Halted ≡ recorded_report }
{}

/// The same of their JSON texts.
#[tactic(auto, unfolding(alw_model::specs::Rows::closed_runs, alw_model::specs::Rows::OneNode::one_node_runs, alw_model::specs::Rows::TwoNodes::two_node_runs, alw_model::specs::Rows::Recorded::recorded_run_words, serde_json::proofs::OnLiterals::serde_json_on_literals, crate::specs::WorkedJson::closed_json))]
pub fn worked_json()
    ensures halted { json_of writers_image defaults writers_journal Halted ≡ writers_json }
    ensures trapped { json_of trap_image defaults trap_journal (Trapped (record { entry = 1; node = 0; slot = 0; pc = 4; tt = 0x07 })) ≡ trap_json }
    ensures limit { json_of loop_image limit_3 loop_journal (Limit (Instr (record { 0 = 0 }))) ≡ limit_json }
    ensures recorded { json_of recorded_image recorded_parameters recorded_journal Halted ≡ recorded_json }
{}

ghost use Rattle.std.specs.Prelude.{◌≡◌, ℕ, List, Err};
ghost use Rattle.alw_trace.specs.declared.values.Claim.{Claim};
ghost use Rattle.alw_trace.specs.declared.values.Trace.{Trace};
ghost use Rattle.alw_trace.specs.declared.faults.TextErr.{TextErr};
ghost use Rattle.alw_trace.specs.declared.faults.TextErr.TheVariants.{NoMemory};
ghost use Rattle.alw_trace.specs.Texts.{claim_text, trace_text};
ghost use Rattle.alw_trace.specs.Lines.{AreClaimLines, AreTraceLines, ClaimLines, IsClaimFault, IsTraceFault, TraceLines, claim_lines, trace_lines};
ghost use Rattle.alw_trace.specs.Readings.{HasClaimTypes, HasTraceTypes, IsClaim, IsTrace, ReadsClaim, ReadsTrace, without_evict};

/// A text has one answer. It has at most one line at fault as a trace, and none where it has a trace's
/// form; then it says one thing. No two traces have the same text, and a trace's text is refused for want
/// of memory alone. So what `write_trace` wrote `read_trace` reads back as the same trace, but for how
/// often evictions are tried, which it says is 0; or it answers want of memory.
#[tactic(auto, using(crate::proofs::OneTrace::one_trace, crate::proofs::OneTrace::no_evict, crate::proofs::OneTrace::same_trace, crate::proofs::OneTrace::read_back))]
pub fn traces_are_read_back()
    ensures formed { (lines : TraceLines) → (fault : ℕ) → AreTraceLines lines → ¬ IsTraceFault (trace_lines lines) fault }
    ensures fault { (text : List ℕ) → (one other : ℕ) → IsTraceFault text one → IsTraceFault text other → one ≡ other }
    ensures said { (one other : TraceLines) → AreTraceLines one → AreTraceLines other → trace_lines one ≡ trace_lines other → one ≡ other }
    ensures evict { (trace : Trace) → trace_text (without_evict trace) ≡ trace_text trace }
    ensures same { (one other : Trace) → IsTrace one → IsTrace other → HasTraceTypes one → HasTraceTypes other → trace_text one ≡ trace_text other → one ≡ other }
    ensures read { (trace : Trace) → (fault : TextErr) → IsTrace trace → HasTraceTypes trace → ReadsTrace (trace_text trace) (Err fault) → fault ≡ NoMemory }
{}

/// The same of claims, whose texts say all of them.
#[tactic(auto, using(crate::proofs::OneClaim::one_claim, crate::proofs::ReadClaims::same_claim, crate::proofs::ReadClaims::claim_back))]
pub fn claims_are_read_back()
    ensures formed { (lines : ClaimLines) → (fault : ℕ) → AreClaimLines lines → ¬ IsClaimFault (claim_lines lines) fault }
    ensures fault { (text : List ℕ) → (one other : ℕ) → IsClaimFault text one → IsClaimFault text other → one ≡ other }
    ensures said { (one other : ClaimLines) → AreClaimLines one → AreClaimLines other → claim_lines one ≡ claim_lines other → one ≡ other }
    ensures same { (one other : Claim) → IsClaim one → IsClaim other → HasClaimTypes one → HasClaimTypes other → claim_text one ≡ claim_text other → one ≡ other }
    ensures read { (claim : Claim) → (fault : TextErr) → IsClaim claim → HasClaimTypes claim → ReadsClaim (claim_text claim) (Err fault) → fault ≡ NoMemory }
{}

//! The law that a trace over a journal has one verdict.
ghost use Rattle.std.specs.Prelude.{◌≡◌, ◌<◌, ◌^◌, ℕ, List, Option, Result, Some, length, true};
ghost use Rattle.address_keys.specs.declared.keys.Keys.{Keys as AKeys};
ghost use Rattle.audit.specs.Verdicts.{Audits, WasRead};
ghost use Rattle.audit.specs.declared.verdict.AuditFault.{AuditFault as AFault};
ghost use Rattle.audit.specs.declared.verdict.Verdict.{Verdict as AVerdict};
ghost use Rattle.rtb_disk.specs.Stores.{Store};

/// The law of verdicts, with nothing to run: where the bytes of a journal and of a trace are known, an audit has one
/// answer, unless the disk or the source fails or memory is wanting. So what one audit said every audit says.
pub fn a_trace_has_one_verdict()
    ensures { (keys : AKeys) (store : Store) (trace : List ℕ) (left' left'' : Option (List ℕ)) (a b : Result AVerdict AFault) → store.told ≡ true → length store.reads < 2 ^ 64
        → Audits keys store (Some trace) left' a → Audits keys store (Some trace) left'' b → WasRead a → WasRead b → a ≡ b }
{}

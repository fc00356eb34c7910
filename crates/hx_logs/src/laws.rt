//! What a printed log is read as, and what a log that was read is printed as. Each contract is a law
//! over the definitions alone.
ghost use Rattle.std.specs.Prelude.{◌≡◌, ℕ, List, map, true};
ghost use Rattle.hx_text.specs.Lines.{lines_of};
ghost use Rattle.hx_cluster.specs.declared.description.Spec.{Spec};
ghost use Rattle.hx_cluster.specs.declared.state.Cluster.{Cluster};
ghost use Rattle.hx_cluster.specs.declared.happenings.Event.{Event};
ghost use Rattle.hx_cluster.specs.Events.{IsLegal};
ghost use Rattle.hx_cluster.specs.Valid.{IsValid};
ghost use Rattle.hx_print.specs.Texts.{log_text};
ghost use Rattle.hx_script.specs.Logs.{log_of};
ghost use Rattle.hx_logs.specs.Printed.{are_told, told_along};
ghost use Rattle.hx_logs.specs.Kept.{kept_text};

/// The log of events whose names and numbers are in range is read as what the events tell, one
/// entry each, and brings no name.
pub fn printed_logs_are_read_again()
    ensures entries { (spec : Spec) (c : Cluster) (h : List Event)
        → IsValid spec → are_told spec c h ≡ true
        → map (λ l. l.entry) (log_of spec (lines_of (log_text spec c h))).0 ≡ told_along c h }
    ensures names { (spec : Spec) (c : Cluster) (h : List Event)
        → IsValid spec → are_told spec c h ≡ true
        → (log_of spec (lines_of (log_text spec c h))).1 ≡ spec }
{}

/// The text of a history whose events tell the entries that a log is read as, one each, is the log
/// without the lines that are passed over.
pub fn read_logs_are_printed_again()
    ensures { (spec : Spec) (lines : List (List ℕ)) (c : Cluster) (h : List Event)
        → IsValid spec → IsLegal c h
        → told_along c h ≡ map (λ l. l.entry) (log_of spec lines).0
        → log_text (log_of spec lines).1 c h ≡ kept_text lines }
{}

//! What the verdict on a log says. The contract of each function is a law over the definitions
//! alone.
ghost use Rattle.std.specs.Prelude.{◌≡◌, ℕ, List, ◌∷◌, ◌++◌, length, Some, None, Err};
ghost use Rattle.hx_cluster.specs.declared.description.Spec.{Spec};
ghost use Rattle.hx_cluster.specs.declared.happenings.Event.{Event};
ghost use Rattle.hx_cluster.specs.Valid.{IsValid};
ghost use Rattle.hx_cluster.specs.Steps.{opening};
ghost use Rattle.hx_cluster.specs.Events.{IsLegal};
ghost use Rattle.hx_pass.specs.Lawful.{IsLawful};
ghost use Rattle.hx_script.specs.declared.log.LogLine.{LogLine};
ghost use Rattle.hx_script.specs.Logs.{log_of};
ghost use Rattle.hx_check.specs.declared.Cause.{Cause};
ghost use Rattle.hx_check.specs.declared.Verdict.TheVariants as verdicts;
ghost use Rattle.hx_check.specs.Standing.{opening_standing, standing_of, MarksTell};
ghost use Rattle.hx_check.specs.Judge.{judged_entry, next_event, IsNext, judged_from, built, IsToldBy, verdict_of};

/// The next event of a lawful history by a line of a log is exactly the one with which the history
/// stays lawful and whose text tells the line's entry. So there is at most one, and none where the
/// line holds no entry.
pub fn next_events_keep_histories_lawful()
    ensures next { (spec : Spec) (h : List Event) (l : LogLine) (e : Event)
        → IsValid spec → IsLawful spec h → next_event spec h l ≡ Some e → IsNext spec h l e }
    ensures only { (spec : Spec) (h : List Event) (l : LogLine) (e : Event)
        → IsValid spec → IsLawful spec h → IsNext spec h l e → next_event spec h l ≡ Some e }
    ensures one { (spec : Spec) (h : List Event) (l : LogLine) (e other : Event)
        → IsValid spec → IsLawful spec h → IsNext spec h l e → IsNext spec h l other → e ≡ other }
    ensures none { (spec : Spec) (h : List Event) (l : LogLine)
        → l.entry ≡ None → next_event spec h l ≡ None }
{}

/// Once a message can be taken, a fetch showed it exactly where its number is below the mark of its
/// session.
pub fn marks_tell_what_was_fetched()
    ensures { (spec : Spec) (h : List Event) → IsValid spec → IsLegal (opening spec) h
        → MarksTell spec h }
{}

/// Where all lines are lawful, the history that they build is lawful, and its events tell the
/// lines' entries, one each.
pub fn lawful_lines_build_a_lawful_history()
    ensures { (spec : Spec) (lines : List LogLine) (n : ℕ) → IsValid spec
        → judged_from spec (opening_standing spec) 0 lines ≡ verdicts.Lawful n
        → IsToldBy spec (built spec lines) lines × (n ≡ length lines) }
{}

/// Else the line at fault is the first that has no next event after the lawful history of those
/// before it, and the cause is the first that fits there.
pub fn unlawful_lines_are_the_first()
    ensures { (spec : Spec) (lines : List LogLine) (line : ℕ) (cause : Cause) → IsValid spec
        → judged_from spec (opening_standing spec) 0 lines ≡ verdicts.Unlawful line cause
        → (good : List LogLine) × (l : LogLine) × (rest : List LogLine) × (h : List Event)
        × (lines ≡ good ++ l ∷ rest) × IsToldBy spec h good × (l.line ≡ line)
        × (judged_entry spec (standing_of spec h) l.entry ≡ Err cause) }
{}

/// The description of a log with the names that its `add` entries bring is valid, where the
/// description was.
pub fn logs_leave_descriptions_valid()
    ensures { (spec : Spec) (lines : List (List ℕ)) → IsValid spec → IsValid (log_of spec lines).1 }
{}

/// So the verdict on the lines of a log is right: where it is lawful, the lines that the log is read
/// as build a lawful history, which tells their entries; else it names the first of them that has
/// no next event, with the first cause that fits there.
pub fn verdicts_on_logs_are_right()
    ensures lawful { (spec : Spec) (lines : List (List ℕ)) (n : ℕ) → IsValid spec
        → verdict_of spec lines ≡ verdicts.Lawful n
        → let log = log_of spec lines in
        IsToldBy log.1 (built log.1 log.0) log.0 × (n ≡ length log.0) }
    ensures unlawful { (spec : Spec) (lines : List (List ℕ)) (line : ℕ) (cause : Cause)
        → IsValid spec → verdict_of spec lines ≡ verdicts.Unlawful line cause
        → let log = log_of spec lines in
        (good : List LogLine) × (l : LogLine) × (rest : List LogLine) × (h : List Event)
        × (log.0 ≡ good ++ l ∷ rest) × IsToldBy log.1 h good × (l.line ≡ line)
        × (judged_entry log.1 (standing_of log.1 h) l.entry ≡ Err cause) }
{}

//! Laws of the definitions alone: each function's contract is a law, and its body is empty.

ghost use Rattle.std.specs.Prelude.{◌≡◌, ◌≢◌, ℕ, List, [], None, Ok, Option, Result, true, false};
ghost use Rattle.std.specs.List.{All};
ghost use Rattle.pylock_audit.specs.Audit.{findings_of};
ghost use Rattle.pylock_audit.specs.Strict.{strict_findings_of};
ghost use Rattle.pylock_command.specs.declared.form.Form.TheVariants.{Json, Lines};
ghost use Rattle.pylock_command.specs.declared.option.PlanOption.{PlanOption};
ghost use Rattle.pylock_command.specs.declared.task.AuditOutput.TheVariants.{Shown};
ghost use Rattle.pylock_command.specs.declared.task.AuditQuestion.{AuditQuestion};
ghost use Rattle.pylock_command.specs.declared.task.MatrixQuestion.{MatrixQuestion};
ghost use Rattle.pylock_command.specs.declared.task.Question.{Question as QuestionValue};
ghost use Rattle.pylock_core.specs.Session.State.{State};
ghost use Rattle.pylock_core.specs.declared.answer.Answer.{Answer};
ghost use Rattle.pylock_matrix.specs.Cell.{CellValue};
ghost use Rattle.pylock_matrix.specs.Moving.{placed};
ghost use Rattle.pylock_readers.specs.Environment.{EnvironmentRead};
ghost use Rattle.pylock_messages.specs.Diagnostic.{DiagnosticValue};
ghost use Rattle.pylock_run.specs.Stream.{SinkValue};
ghost use Rattle.pylock_run.specs.declared.report.fault.RunFault.{RunFault};
ghost use Rattle.pylock_program.specs.Audit.{PrintsAll, PrintsAudit, opened_audit};
ghost use Rattle.pylock_program.specs.Left.{leaves_all, left_answer};
ghost use Rattle.pylock_program.specs.Matrix.{asked_settings, opened_matrix, plan_state};
ghost use Rattle.pylock_program.specs.Refusal.{PrintsTelling};
ghost use Rattle.pylock_program.specs.Reply.{audit_report, read_or_refused};
ghost use Rattle.pylock_program.specs.Show.{question_report, with_strict};

/// A strict plan is the plan: where nothing is found in a lock that a strict reading refuses,
/// `--strict` changes nothing of what `plan` and `explain` print; and what they print with it under
/// another status than 2 is what they print without it.
#[tactic(auto, using(crate::proofs::OpeningLemmas::laws))]
pub fn strict_plan()
    ensures taken { (question : QuestionValue) (diagnostic : Option DiagnosticValue)
        (lock : List ℕ) (environment : EnvironmentRead)
        → strict_findings_of lock ≡ []
        → question_report (with_strict true question) diagnostic lock environment
        ≡ question_report (with_strict false question) diagnostic lock environment }
    ensures answered { (question : QuestionValue) (diagnostic : Option DiagnosticValue)
        (lock : List ℕ) (environment : EnvironmentRead)
        → (question_report (with_strict true question) diagnostic lock environment).status ≢ 2
        → question_report (with_strict true question) diagnostic lock environment
        ≡ question_report (with_strict false question) diagnostic lock environment }
{}

/// Where nothing is asked besides, all that is found in the lock alone counts, and the status is 1
/// where that is something. The lines of `audit` are what [`push_audit`](crate::push_audit) pushes,
/// and its document has each finding of that at its place besides.
#[tactic(auto, using(crate::proofs::PlainAuditLemmas::plain_audits))]
pub fn plain_audit()
    ensures lines { (asked : AuditQuestion) (lock : List ℕ) (sink sink' : SinkValue)
        (result : Result ℕ RunFault)
        → asked.output ≡ Shown Lines → asked.environments ≡ false → asked.hosts.items ≡ []
        → asked.ignored.items ≡ [] → asked.fail_on ≡ None
        → PrintsAudit asked lock (opened_audit asked lock [] None) sink sink' result
        → PrintsTelling (λ diagnostic. audit_report Lines diagnostic lock) sink sink' result }
    ensures document { (asked : AuditQuestion) (lock : List ℕ) (sink sink' : SinkValue)
        (result : Result ℕ RunFault)
        → asked.output ≡ Shown Json → asked.environments ≡ false → asked.hosts.items ≡ []
        → asked.ignored.items ≡ [] → asked.fail_on ≡ None
        → PrintsAudit asked lock (opened_audit asked lock [] None) sink sink' result
        → PrintsAll lock (read_or_refused (findings_of lock)) sink sink' result }
{}

/// Where no option leaves anything out, `plan` prints its answer whole.
#[tactic(auto, using(crate::proofs::LeftLemmas::all_left))]
pub fn whole_plan()
    ensures { (options : List PlanOption) (state : State) (answer : Answer)
        → leaves_all options ≡ true → left_answer options state answer ≡ answer }
{}

/// Each row is what `plan` answers: moved to a target, the session of `matrix` is in the state that
/// `plan` opens with the words of that target and the same options. So no option is refused on one
/// target and accepted on another.
#[tactic(auto, using(crate::proofs::PlanLemmas::rows_of_plans))]
pub fn rows_are_of_plans()
    ensures { (asked : MatrixQuestion) (bytes : List ℕ) (state : State) (cells : List CellValue)
        → opened_matrix asked bytes ≡ Ok (state, cells)
        → All (λ cell. plan_state asked bytes cell
        ≡ Ok (placed cell.target (asked_settings asked.options.items) state)) cells }
{}

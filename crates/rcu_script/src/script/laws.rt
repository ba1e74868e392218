//! Laws of the lines of a script.
ghost use Rattle.std.specs.Prelude.{◌≡◌, ◌≢◌, ◌<◌, ◌≤◌, ◌+◌, ◌∷◌, ◌++◌, false, true, ℕ, List, []};
ghost use Rattle.std.specs.Prelude.{Some, All, codes, map};
ghost use Rattle.rcu_seq.specs.Numbers.{number_at};
ghost use Rattle.rcu_seq.specs.declared.cookie.Cookie.{Cookie};
ghost use Rattle.rcu_core.specs.Callbacks.{handed_out, has_full_period, queued_before_barrier};
ghost use Rattle.rcu_core.specs.Callbacks.{since, times_handed_out};
ghost use Rattle.rcu_core.specs.History.{History, ends_in_epoch, running, section};
ghost use Rattle.rcu_core.specs.Links.{ToldSince, starts, tag};
ghost use Rattle.rcu_core.specs.Replies.{Size};
ghost use Rattle.rcu_core.specs.Runs.{IsLegalRun, Run, history, takes};
ghost use Rattle.rcu_text.specs.Lines.{lines_of};
ghost use Rattle.rcu_text.specs.Runs.{BegunToWrite, Ends, StoppedReading, StoppedWriting};
ghost use Rattle.rcu_script.specs.ScriptAnswers.{Answers, IsAnswer, replies, wants_memory};
ghost use Rattle.rcu_script.specs.ScriptRuns.{AnswersInTurn, IsPrintedRun};
ghost use Rattle.rcu_script.specs.ScriptLines.{asked_by};
ghost use Rattle.rcu_script.specs.ScriptTexts.{text_of};

use rcu_core::laws::{
    barrier_covers_earlier_callbacks, no_callback_runs_early, no_callback_runs_twice,
    readers_finish_before_done,
};
use rcu_core::progress::{
    heard_processors_let_a_grace_period_end, the_last_report_lets_a_grace_period_end,
};
use rcu_core::{Event, Reply};
use rcu_node::Answer;
use rcu_text::Line;
use rcu_text::laws::{lines_are_pieces, lines_read_whole_come_first};

/// An answer of a script is a legal run of its lines: its events are those that the lines ask for,
/// in order, each with a legal reply, the replies print to the text, and the run has the history
/// that the answer ends at. It continues any legal run that led to the history that the answer
/// began at. Nothing else is an answer. So each law of runs holds for the printed text.
pub fn an_answer_is_a_legal_run()
    ensures first { (size : Size) (lines : List (List ℕ)) (text : List ℕ) (end : History)
        → Answers size [] lines text end → IsPrintedRun size [] (map asked_by lines) text end }
    ensures further { (size : Size) (earlier : Run) (h end : History) (lines : List (List ℕ))
        (text : List ℕ) → IsLegalRun size earlier → history earlier ≡ h
        → Answers size h lines text end
        → IsPrintedRun size earlier (map asked_by lines) text end }
    ensures only { (size : Size) (earlier : Run) (h end : History) (lines : List (List ℕ))
        (text : List ℕ) → history earlier ≡ h
        → IsPrintedRun size earlier (map asked_by lines) text end
        → Answers size h lines text end }
{}

/// The right text of any lines is an answer to them, and no line of it says that memory was
/// refused.
pub fn the_right_text_is_an_answer()
    ensures answers { (size : Size) (lines : List (List ℕ))
        → IsAnswer size lines (replies size [] lines) }
    ensures memory { (size : Size) (lines : List (List ℕ))
        → wants_memory (replies size [] lines) ≡ false }
{
    lines_are_pieces();
}

/// An answer is the right text if no line of it says that memory was refused: there is exactly one.
pub fn the_right_text_is_the_only_one()
    ensures { (size : Size) (lines : List (List ℕ)) (text : List ℕ) (end : History)
        → Answers size [] lines text end → wants_memory text ≡ false
        → text ≡ replies size [] lines }
{}

/// The right text of some lines is a prefix of the right text of those and any later ones. So the
/// text written before a failed read or write is a prefix of the right text of the whole input, if
/// no line of the answer says that memory was refused.
pub fn the_right_text_of_earlier_lines_comes_first()
    ensures { (size : Size) (lines later : List (List ℕ)) (text : List ℕ)
        → IsAnswer size lines text → wants_memory text ≡ false
        → (rest : List ℕ) × (replies size [] (lines ++ later) ≡ text ++ rest) }
{}

/// The text written before a stream failed is a prefix of the right text of the whole input,
/// however the reader would have continued, if no line that the text answers was refused memory.
pub fn what_was_written_begins_the_right_text()
    ensures read { (size : Size) (all : List ℕ) (old new : Ends)
        (stopped : StoppedReading (IsAnswer size) old new) → old.reader.remaining ≡ Some all
        → wants_memory stopped.answered.text ≡ false
        → BegunToWrite (replies size [] (lines_of all)) old.writer.taken new.writer.taken }
    ensures write { (size : Size) (all : List ℕ) (old new : Ends)
        (stopped : StoppedWriting (IsAnswer size) old new) → old.reader.remaining ≡ Some all
        → wants_memory (stopped.broken.written ++ stopped.broken.unwritten) ≡ false
        → BegunToWrite (replies size [] (lines_of all)) old.writer.taken new.writer.taken }
{
    lines_read_whole_come_first();
}

/// A text answers lines and later ones exactly if it answers them in turn: at each cut of the lines
/// the text can be cut too, at the history between them.
pub fn lines_are_answered_in_turn()
    ensures cut { (size : Size) (h end : History) (lines later : List (List ℕ)) (text : List ℕ)
        → Answers size h (lines ++ later) text end → AnswersInTurn size h lines later text end }
    ensures joined { (size : Size) (h end : History) (lines later : List (List ℕ)) (text : List ℕ)
        → AnswersInTurn size h lines later text end → Answers size h (lines ++ later) text end }
{}

/// Readers finish before `done` is printed: if a line was answered by a cookie, and a later line
/// that polls this cookie is answered `done`, each read section that was open at the first line has
/// ended at the later one.
pub fn readers_finish_before_done_is_printed()
    ensures { (size : Size) (before between : List (List ℕ)) (taking polling told more : List ℕ)
        (event : Event) (cookie : Cookie) (cpu : ℕ) (at_taking at_poll end opened : History)
        → Answers size [] before told at_taking
        → asked_by taking ≡ Line.Ask event → takes event ≡ true
        → Answers size at_taking (taking ∷ between)
        (text_of (Reply.Cookie cookie) ++ more) at_poll
        → asked_by polling ≡ Line.Ask (Event.Poll cookie.number cookie.epoch)
        → Answers size at_poll (polling ∷ []) (text_of (Reply.Polled true)) end
        → section cpu at_taking ≡ Some opened → section cpu at_poll ≢ Some opened }
{
    readers_finish_before_done();
}

/// No callback runs early in print: if a line that runs callbacks is answered `ran`, the answer
/// gives the values of those handed out, and a full grace period lies between the line that queued
/// each of them and this line.
pub fn no_callback_is_printed_early()
    ensures values { (size : Size) (before : List (List ℕ)) (running told text more : List ℕ)
        (cpu most : ℕ) (at_run end : History) → Answers size [] before told at_run
        → asked_by running ≡ Line.Ask (Event.Run cpu most)
        → Answers size at_run (running ∷ []) text end → text ≡ codes "ran" ++ more
        → text ≡ text_of (Reply.Ran (map (λ call. call.value) (handed_out cpu most at_run))) }
    ensures late { (size : Size) (before : List (List ℕ)) (running told text more : List ℕ)
        (cpu most : ℕ) (at_run end : History) → Answers size [] before told at_run
        → asked_by running ≡ Line.Ask (Event.Run cpu most)
        → Answers size at_run (running ∷ []) text end → text ≡ codes "ran" ++ more
        → All (λ call. has_full_period (since call.ord at_run) ≡ true)
        (handed_out cpu most at_run) }
{
    no_callback_runs_early();
}

/// No callback runs twice in print: whatever lines were answered, each callback was handed out at
/// most once.
pub fn no_callback_is_printed_twice()
    ensures { (size : Size) (lines : List (List ℕ)) (text : List ℕ) (end : History) (ord : ℕ)
        → Answers size [] lines text end → times_handed_out ord end ≤ 1 }
{
    no_callback_runs_twice();
}

/// A barrier that is printed done covers earlier callbacks: each callback queued before it began
/// has been handed out, once.
pub fn a_barrier_printed_done_covers_earlier_callbacks()
    ensures { (size : Size) (before : List (List ℕ)) (testing told : List ℕ) (ord : ℕ)
        (at_test end : History) → Answers size [] before told at_test
        → asked_by testing ≡ Line.Ask Event.BarTest
        → Answers size at_test (testing ∷ []) (text_of Reply.BarDone) end
        → 0 < ord → ord ≤ queued_before_barrier at_test → times_handed_out ord at_test ≡ 1 }
{
    barrier_covers_earlier_callbacks();
}

/// An end after `last` is printed `ended`: if a delivered report or a scan was answered `last`, and
/// the next line asks for the end, it is answered `ended` and the number that ends the running
/// grace period.
pub fn an_end_after_last_is_printed_ended()
    ensures { (size : Size) (before : List (List ℕ)) (telling ending told text : List ℕ)
        (event : Event) (at_last at_end end : History)
        → Answers size [] before told at_last
        → asked_by telling ≡ Line.Ask event
        → Answers size at_last (telling ∷ []) (text_of (Reply.Answer Answer.Last)) at_end
        → asked_by ending ≡ Line.Ask Event.End
        → Answers size at_end (ending ∷ []) text end
        → text ≡ text_of (Reply.Ended (number_at (ends_in_epoch at_end + 1) false)) }
{
    the_last_report_lets_a_grace_period_end();
}

/// An end is printed `ended` once each processor was heard: if each one that was online at the
/// begin has noted the number, passed a quiescent state and had its report delivered since, or was
/// scanned or departed, a line that asks for the end is answered `ended`, whatever other lines came
/// between.
pub fn an_end_is_printed_ended_once_all_were_heard()
    ensures { (size : Size) (before : List (List ℕ)) (ending told text : List ℕ)
        (at_end end : History) → Answers size [] before told at_end → running at_end ≡ true
        → ((cpu : ℕ) → cpu < size.cpus → starts cpu at_end ≡ true
        → ToldSince cpu (tag at_end) at_end)
        → asked_by ending ≡ Line.Ask Event.End
        → Answers size at_end (ending ∷ []) text end
        → text ≡ text_of (Reply.Ended (number_at (ends_in_epoch at_end + 1) false)) }
{
    heard_processors_let_a_grace_period_end();
}

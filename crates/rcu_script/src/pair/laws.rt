//! Laws of the lines of a pair.
ghost use Rattle.std.specs.Prelude.{◌≡◌, ◌++◌, ℕ, List, Some, codes, true};
ghost use Rattle.rcu_report.specs.History.{Represents, is_heard, starts, tag};
ghost use Rattle.rcu_core.specs.Replies.{Size};
ghost use Rattle.rcu_text.specs.Lines.{lines_of};
ghost use Rattle.rcu_text.specs.Runs.{BegunToWrite, Ends, StoppedReading, StoppedWriting};
ghost use Rattle.rcu_script.specs.PairHistory.{calls_of};
ghost use Rattle.rcu_script.specs.PairState.{pair_at};
ghost use Rattle.rcu_script.specs.PairTexts.{IsPairText, pair_after, pair_replies, same_text};

use rcu_report::laws::{equally_heard_replicas_await_the_same, replica_is_as_its_history_says};
use rcu_text::laws::lines_read_whole_come_first;

/// After any lines each replica is as the history of its accepted calls defines it: it awaits the
/// start set less the processors heard since.
pub fn replicas_are_as_their_calls_say()
    ensures a { (size : Size) (lines : List (List ℕ))
        → Represents (pair_after (pair_at size) lines).a (calls_of size lines).a }
    ensures b { (size : Size) (lines : List (List ℕ))
        → Represents (pair_after (pair_at size) lines).b (calls_of size lines).b }
{
    replica_is_as_its_history_says();
}

/// If the latest grace periods of both replicas had one number and one start set, and both heard
/// the same processors since, `same` is answered `same`, whatever the fanouts and the order of the
/// reports and departures.
pub fn equally_heard_replicas_are_the_same()
    ensures { (size : Size) (lines : List (List ℕ))
        → tag (calls_of size lines).a ≡ tag (calls_of size lines).b
        → ((cpu : ℕ) → starts cpu (calls_of size lines).a ≡ starts cpu (calls_of size lines).b)
        → ((cpu : ℕ) → starts cpu (calls_of size lines).a ≡ true
        → is_heard cpu (tag (calls_of size lines).a) (calls_of size lines).a
        ≡ is_heard cpu (tag (calls_of size lines).b) (calls_of size lines).b)
        → same_text (pair_after (pair_at size) lines) ≡ codes "same\n" }
{
    equally_heard_replicas_await_the_same();
}

/// The right text of some lines is a prefix of the right text of those and any later ones. So the
/// text written before a failed read or write is a prefix of the right text of the whole input.
pub fn the_right_text_of_earlier_lines_comes_first()
    ensures { (size : Size) (lines later : List (List ℕ)) (text : List ℕ)
        → IsPairText size lines text
        → (rest : List ℕ) × IsPairText size (lines ++ later) (text ++ rest) }
{}

/// The text written before a stream failed is a prefix of the right text of the whole input,
/// however the reader would have continued.
pub fn what_was_written_begins_the_right_text()
    ensures read { (size : Size) (all : List ℕ) (old new : Ends)
        → StoppedReading (IsPairText size) old new → old.reader.remaining ≡ Some all
        → BegunToWrite (pair_replies (pair_at size) (lines_of all))
        old.writer.taken new.writer.taken }
    ensures write { (size : Size) (all : List ℕ) (old new : Ends)
        → StoppedWriting (IsPairText size) old new → old.reader.remaining ≡ Some all
        → BegunToWrite (pair_replies (pair_at size) (lines_of all))
        old.writer.taken new.writer.taken }
{
    lines_read_whole_come_first();
}

// The top call.
ghost use Rattle.std.specs.Prelude.{◌≡◌, ◌≢◌, ◌≤◌, ◌⊎◌, ℕ, List, Some, None};
ghost use Rattle.std.specs.Io.KnownBytes.{Keeps};
ghost use Rattle.fleet_io.specs.Causes.{Rose};
ghost use Rattle.fleet_io.specs.Bytes.{Stays};
ghost use Rattle.form_base.specs.Forms.{status_of};
ghost use Rattle.form_base.specs.Runs.{TellsDue, TellsFault, TellsReport, TellsText, TellsWhole};
ghost use Rattle.form_base.specs.declared.report.Ended.{Ended};
ghost use Rattle.fleet_assign.specs.Form.{IsLeastText};
ghost use Rattle.fleet_replay.specs.Form.{IsSoundReplay};
ghost use Rattle.fleet_script.specs.Form.{IsSoundScript};
ghost use Rattle.fleet_cli.specs.Forms.{Assign, Form, Replay, Script, form_asked, spec_of};
ghost use Rattle.fleet_cli.specs.Runs.{HasStatus, IsDueFor, RunsFor};

use crate::reply::{NoReply, ready};
use fleet_io::{Sink, Source};
use form_base::finish;
use std::alloc::Global;

/// Does what the words ask for, and answers the status of the program. The words are those of the
/// command line without the program's own name.
///
/// | Status | Where | What is written |
/// |---|---|---|
/// | 0 | the form gave its text | that text |
/// | 1 | memory was short, which no contract can tell | nothing |
/// | 2 | the words are no form | the usage line |
/// | 3 | the input isn't accepted, or a word of `route` names nothing fitting in it | the line of its fault |
/// | 5 | a read failed | nothing |
/// | 6 | a write failed | a prefix of the text that was due |
pub fn fleet<S: Source, K: Sink>(alloc: Global, words: &[&str], source: &mut S, sink: &mut K) -> u8
    // Where the source tells its bytes, what goes out is due for them and for the words, whole or,
    // with status 6, a prefix of it.
    ensures told { (input : List ℕ) → S.left source.old ≡ Some input → result ≢ 1 → result ≢ 5 →
        TellsDue (IsDueFor (form_asked words.now) input) result (K.written sink.old) (K.written sink.new) }

    // Where no read and no write failed, it goes out whole, or memory ran out.
    ensures complete { (input : List ℕ) → S.left source.old ≡ Some input →
        ¬ Rose (S.faults source.old) (S.faults source.new) →
        ¬ Rose (K.faults sink.old) (K.faults sink.new) →
        (result ≡ 1) ⊎ TellsWhole (IsDueFor (form_asked words.now) input) result (K.written sink.old) (K.written sink.new) }

    // The same where the source tells nothing, for some input. What was taken from the source is
    // all that it had left, or one byte more than the limit, or nothing where nothing is read.
    ensures answer { result ≢ 1 → result ≢ 5 → RunsFor (form_asked words.now) result
        (S.left source.old) (S.left source.new) (K.written sink.old) (K.written sink.new) }

    // Status 2: the words are no form, and the source isn't read.
    ensures usage { result ≡ 2 →
        (form_asked words.now ≡ None) × Keeps (S.left source.old) (S.left source.new) }

    // Words that are no form are told so, unless memory ran out or the write failed.
    ensures unknown { form_asked words.now ≡ None → (result ≡ 1) ⊎ (result ≡ 2) ⊎ (result ≡ 6) }

    // Status 3: the input has the fault that is told.
    ensures refused { (form : Form) (input : List ℕ) → form_asked words.now ≡ Some form →
        S.left source.old ≡ Some input → result ≡ 3 →
        TellsFault (spec_of form) input (K.written sink.old) (K.written sink.new) }

    // The status of a form that gave its text: what is known of such a text holds.
    ensures reported { (form : Form) (input : List ℕ) (ended : Ended) → form_asked words.now ≡ Some form →
        S.left source.old ≡ Some input → result ≡ status_of ended →
        TellsReport (spec_of form) input ended (K.written sink.old) (K.written sink.new) }

    // Status 0 of `script`: the script was carried out, and what went out is its answers and a
    // journal with the state that it reaches. The journal is legal from the opening state and
    // sound at each of its places, and what it reports is a legal replay.
    ensures sound { (input : List ℕ) → form_asked words.now ≡ Some Script →
        S.left source.old ≡ Some input → result ≡ 0 →
        TellsText (IsSoundScript input) (K.written sink.old) (K.written sink.new) }

    // Status 0 of `replay`: the journal behind the scenario is legal from the opening state and
    // sound at each of its places, what it reports is a legal replay, and what went out is the
    // text of the state that it reaches.
    ensures replayed { (input : List ℕ) → form_asked words.now ≡ Some Replay →
        S.left source.old ≡ Some input → result ≡ 0 →
        TellsText (IsSoundReplay input) (K.written sink.old) (K.written sink.new) }

    // Status 0 of `assign`: what went out gives each robot a column of its own, a task or none, and
    // no way to do so has a smaller total.
    ensures assigned { (input : List ℕ) → form_asked words.now ≡ Some Assign →
        S.left source.old ≡ Some input → result ≡ 0 →
        TellsText (IsLeastText input) (K.written sink.old) (K.written sink.new) }

    // Want of memory and a fault of the source write nothing.
    ensures silent { (result ≡ 1) ⊎ (result ≡ 5) → Stays (K.written sink.old) (K.written sink.new) }
    ensures read_fault { result ≡ 5 → Rose (S.faults source.old) (S.faults source.new) }
    ensures write_fault { result ≡ 6 → Rose (K.faults sink.old) (K.faults sink.new) }
    ensures range { result ≤ 7 }
{
    run(alloc, words, source, sink)
}

// The same, by the clauses of which the others of `fleet` are consequences.
fn run<S: Source, K: Sink>(alloc: Global, words: &[&str], source: &mut S, sink: &mut K) -> u8
    ensures answer { result ≢ 1 → result ≢ 5 → RunsFor (form_asked words.now) result
        (S.left source.old) (S.left source.new) (K.written sink.old) (K.written sink.new) }
    ensures status { (result ≡ 1) ⊎ ((result ≡ 5) ⊎ ((result ≡ 6) ⊎ HasStatus (form_asked words.now) result)) }
    ensures silent { (result ≡ 1) ⊎ (result ≡ 5) → Stays (K.written sink.old) (K.written sink.new) }
    ensures read_fault { result ≡ 5 → Rose (S.faults source.old) (S.faults source.new) }
    ensures unread { result ≡ 5 → form_asked words.now ≢ None }
    ensures write_fault { result ≡ 6 → Rose (K.faults sink.old) (K.faults sink.new) }
{
    match ready(alloc, words, source) {
        Ok(reply) => finish(sink, &reply),
        Err(NoReply::ReadFault) => 5,
        Err(NoReply::NoMemory) => 1,
    }
}
